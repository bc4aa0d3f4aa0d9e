// The 217 variables: those that stand for themselves, what a read of an address answers, and the output word with one of its bytes
// written. 01, 'Variables', its table. Definitions: specs/Panel.antt, specs/Variables.antt.
#![tactic(auto)]

ghost use Rattle.std.specs.Prelude.{◌≡◌, ◌+◌, ◌-◌, ◌*◌, ◌≤◌, length};
ghost use Rattle.lines.specs.Program.{IsProgram};
ghost use Rattle.formats.specs.Digits.{h, d, 2d};
ghost use Rattle.formats.specs.TextWritten.{Writes};
ghost use Rattle.lines.specs.Line.{read_line, bytes_of};
ghost use Rattle.running.specs.Running.{counter};
ghost use Rattle.variables.specs.Panel.{fresh_panel, with_single, with_parameter, with_special, with_event};
ghost use Rattle.variables.specs.Variables.{line_of, is_bad_at, status_bits, output_byte, with_output_byte, value};

use formats::Text;
use lines::Line;
use running::Run;

// The variables that stand beside the program, the run and the wire.
// Kept: the C interface has this struct, with the event as the number that 212 shows, 0 for none.
#[repr(C)]
#[derive(Clone, Copy, Debug, PartialEq, Eq)]
pub struct Panel {
    // 200, the single command, in the eight bytes of a line
    pub single: [u8; 8],
    // 209
    pub parameter: u8,
    // 210, the last accepted special command
    pub special: u8,
    // 212, and D7 of 201
    pub event: u8,
    pub unread: bool,
}

impl Panel {
    // At power-on.
    pub fn fresh() -> Panel
        ensures panel { result ≡ fresh_panel }
    {
        Panel {
            single: lines::bytes_of(lines::end_mark()),
            parameter: 0,
            special: 0,
            event: 12,
            unread: true,
        }
    }

    // 200 is that line.
    pub fn with_single(mut self, l: Line) -> Panel
        ensures panel { result ≡ with_single (bytes_of l) self }
    {
        self.single = lines::bytes_of(l);
        self
    }

    // 209 is v.
    pub fn with_parameter(mut self, v: u8) -> Panel
        ensures panel { result ≡ with_parameter v self }
    {
        self.parameter = v;
        self
    }

    // 210 is that code.
    pub fn with_special(mut self, code: u8) -> Panel
        ensures panel { result ≡ with_special code self }
    {
        self.special = code;
        self
    }

    // 212 is that event, and D7 of 201 says whether it is unread.
    pub fn with_event(mut self, event: u8, unread: bool) -> Panel
        ensures panel { result ≡ with_event event unread self }
    {
        self.event = event;
        self.unread = unread;
        self
    }
}

// ---- bits

// How many bits of the output word stand below the byte at 203-206.
fn bits_below(k: u8) -> u32
    requires { (203 ≤ k) × (k ≤ 206) }
    ensures bits { result ≡ 8 * (206 - k) }
{
    8 * ((206 - k) as u32)
}

// Kept: shift and mask for 203-206, D7, D1 and D0, a form that this project has settled (docs/DECISIONS.md, 'Forms').

// The byte of the output word that 203-206 shows.
pub fn output_byte(word: u32, k: u8) -> u8
    requires { (203 ≤ k) × (k ≤ 206) }
    ensures byte { result ≡ output_byte k word }
{
    let s = bits_below(k);
    ((word >> s) % 256) as u8
}

// The output word with the byte x at 203-206: its eight bits are altered, and no other bit.
pub fn with_output_byte(word: u32, k: u8, x: u8) -> u32
    requires { (203 ≤ k) × (k ≤ 206) }
    ensures word { result ≡ with_output_byte k x word }
{
    let s = bits_below(k);
    let mask: u32 = 0xFF << s;
    (word & !mask) | ((x as u32) << s)
}

// The byte at 201: D7 unread event, D1 running, D0 paused.
pub fn status(unread: bool, on: bool, paused: bool) -> u8
    ensures bits { result ≡ status_bits unread on paused }
{
    (unread as u8) << 7 | (on as u8) << 1 | (paused as u8)
}

// ---- reads

// The line at 000-200.
// Put into its callers, so that a byte keeps under its limit of stack.
#[inline(always)]
#[tactic(auto, unfolding(crate::specs::Variables::line_of))]
pub fn line_of(panel: Panel, program: &[u8], k: u8) -> Line
    requires { IsProgram program.now × (k ≤ 200) }
    ensures line { result ≡ line_of panel program.now k }
{
    if k == 200 {
        lines::read_line(&panel.single)
    } else {
        lines::line_at(program, k as usize)
    }
}

// Address k is one of 000-200, and a Bad line stands there.
#[tactic(auto, unfolding(crate::specs::Variables::is_bad_at))]
pub fn is_bad_at(panel: Panel, program: &[u8], k: u8) -> bool
    requires { IsProgram program.now }
    ensures test { result ≡ is_bad_at panel program.now k }
{
    k <= 200 && lines::is_bad(line_of(panel, program, k))
}

// What a read of address k shows is written behind a text.
pub fn put_value(text: &mut Text, panel: Panel, run: Run, paused: bool, program: &[u8], k: u8)
    requires { IsProgram program.now × (k ≤ 216) × (text.old.at + 15 ≤ length text.old.area.now) }
    ensures same_reference { text.new.area.ghost_name ≡ text.old.area.ghost_name }
    ensures wrote { Writes (value panel run paused program.now k) text.old text.new }
    ensures near { text.new.at ≤ text.old.at + 15 }
{
    let (base, digits, v) = match k {
        0..=200 => return texts::put_line_text(text, line_of(panel, program, k)),
        201 => (16, 2, status(panel.unread, run.on, paused) as u64),
        202 | 207 => (16, 2, 0),
        203..=206 => (16, 2, output_byte(run.outputs, k) as u64),
        208 => (10, 3, 0),
        209 => (10, 3, panel.parameter as u64),
        210 => (10, 3, panel.special as u64),
        211 => (10, 3, run.line as u64),
        212 => (10, 3, panel.event as u64),
        _ => (10, 4, run.counters[(k - 213) as usize].count as u64),
    };
    text.digits(base, digits, v);
}
