// Trials of the five calls with areas of any length, driven by records of four bytes, on standard input or in a file that an argument names: what to
// do, a byte x, and two bytes more; the last three are also one number, of a button or of a length. After each call a line tells the refusal, the
// lines run, the bytes written, a sum of each whole buffer, and the bytes written. model/trials.py writes the input and the expected output.
#![tactic(auto)]

ghost use Rattle.std.specs.Prelude.{◌<◌, ◌≤◌};
ghost use Rattle.controller.specs.Invariant.{Invariant};

use calls::{Done, Returned, SwitchBox};
use formats::Numbered;
use streams::input::Input;
use streams::{Output, arguments};

// What is gathered of the output before it goes out.
type Told = Output<4096>;

const PROGRAM: usize = 1608;

const LOG: usize = 65544;

const OUT: usize = 128;

// How many bytes of each buffer are lent, no more than there are.
#[derive(Clone, Copy)]
struct Sizes {
    program: usize,
    saved: usize,
    log: usize,
    out: usize,
    ghost fit: { (program ≤ 1608) × (saved ≤ 1608) × (log ≤ 65544) × (out ≤ 128) },
}

// The buffers, and what is lent of them.
#[derive(Drop)]
struct Buffers {
    program: [u8; PROGRAM],
    saved: [u8; PROGRAM],
    log: [u8; LOG],
    out: [u8; OUT],
    sizes: Sizes,
}

// One of the buffers.
#[derive(Clone, Copy)]
enum Name {
    Program,
    Saved,
    Log,
    Out,
}

#[derive(Clone, Copy)]
enum Call {
    PowerOn,
    Byte(u8),
    Tick,
    Press(u32),
    Empty,
}

// A record of the input.
#[derive(Clone, Copy)]
enum Record {
    Calls(Call),
    // a byte of a buffer is altered, where it has that one
    Alters(Name, usize, u8),
    // so much of a buffer is lent from now on, where there is as much
    Lends(Name, usize),
    Nothing,
}

// The record of four bytes.
fn record_of(bytes: [u8; 4]) -> Record {
    let [op, x, high, low] = bytes;
    let at = formats::number_of_two(high, low) as usize;
    let number = x as u32 * 65536 + at as u32;
    let n = number as usize;
    match op {
        b'o' => Record::Calls(Call::PowerOn),
        b'b' => Record::Calls(Call::Byte(x)),
        b't' => Record::Calls(Call::Tick),
        b'n' => Record::Calls(Call::Press(number)),
        b'e' => Record::Calls(Call::Empty),
        b'A' => Record::Alters(Name::Program, at, x),
        b'V' => Record::Alters(Name::Saved, at, x),
        b'G' => Record::Alters(Name::Log, at, x),
        b'P' => Record::Lends(Name::Program, n),
        b'S' => Record::Lends(Name::Saved, n),
        b'L' => Record::Lends(Name::Log, n),
        b'R' => Record::Lends(Name::Out, n),
        _ => Record::Nothing,
    }
}

// A call with the areas that it is lent.
fn tried(
    b: SwitchBox,
    call: Call,
    program: &mut [u8],
    saved: &mut [u8],
    log: &mut [u8],
    out: &mut [u8],
) -> Returned
    requires { Invariant b.controller }
    ensures kept { Invariant result.next.controller }
{
    match call {
        Call::PowerOn => SwitchBox::power_on(program, saved, log),
        Call::Byte(x) => b.byte(x, program, saved, log, out),
        Call::Tick => b.tick(program, log),
        Call::Press(n) => b.press(n, program, log),
        Call::Empty => b.empty(log, out),
    }
}

// A call that is lent the first bytes of each buffer.
// Kept: buffers as parameters of their own, since no proof is made where parts of several fields behind one reference are lent.
fn lent(
    b: SwitchBox,
    call: Call,
    sizes: Sizes,
    program: &mut [u8; PROGRAM],
    saved: &mut [u8; PROGRAM],
    log: &mut [u8; LOG],
    out: &mut [u8; OUT],
) -> Returned
    requires { Invariant b.controller }
    ensures kept { Invariant result.next.controller }
{
    tried(
        b,
        call,
        &mut program[..sizes.program],
        &mut saved[..sizes.saved],
        &mut log[..sizes.log],
        &mut out[..sizes.out],
    )
}

impl Buffers {
    // The same with its buffers.
    fn called(&mut self, b: SwitchBox, call: Call) -> Returned
        requires { Invariant b.controller }
        ensures kept { Invariant result.next.controller }
    {
        let Buffers {
            program,
            saved,
            log,
            out,
            sizes,
        } = self;
        lent(b, call, *sizes, program, saved, log, out)
    }

    // A byte of a buffer is altered, where it has that one.
    fn alter(&mut self, name: Name, at: usize, x: u8) {
        match name {
            Name::Program if at < PROGRAM => self.program[at] = x,
            Name::Saved if at < PROGRAM => self.saved[at] = x,
            Name::Log if at < LOG => self.log[at] = x,
            Name::Out if at < OUT => self.out[at] = x,
            _ => {}
        }
    }

    // So much of a buffer is lent from now on, where there is as much.
    fn lend(&mut self, name: Name, n: usize) {
        match name {
            Name::Program if n <= PROGRAM => self.sizes.program = n,
            Name::Saved if n <= PROGRAM => self.sizes.saved = n,
            Name::Log if n <= LOG => self.sizes.log = n,
            Name::Out if n <= OUT => self.sizes.out = n,
            _ => {}
        }
    }
}

// ---- what is told

// One byte more of a sum.
fn added(h: u64, b: u8) -> u64
    requires { h < 65521 }
    ensures small { result < 65521 }
{
    (h * 31 + b as u64) % 65521
}

// A sum of a whole buffer.
fn sum(buffer: &[u8]) -> u64 {
    let mut h: u64 = 0;
    for b in buffer {
        h = added(h, *b);
    }
    h
}

// The line that tells of a call: what it returned, a sum of each buffer as it left them, and the bytes written.
fn tell(output: &mut Told, a: Returned, buffers: &Buffers) {
    let (refusal, done) = match a.done {
        Ok(done) => (0, done),
        Err(refusal) => (
            refusal.number(),
            Done {
                lines: 0,
                written: 0,
            },
        ),
    };
    output.put_number(refusal as u64, b' ');
    output.put_number(done.lines as u64, b' ');
    output.put_number(done.written as u64, b' ');
    output.put_number(sum(&buffers.program), b' ');
    output.put_number(sum(&buffers.saved), b' ');
    output.put_number(sum(&buffers.log), b' ');
    output.put_number(sum(&buffers.out), b' ');
    output.put_first(&buffers.out, done.written);
    output.put(b"\n");
}

// ---- the whole

// One record.
fn one(held: &mut SwitchBox, buffers: &mut Buffers, output: &mut Told, record: Record)
    requires { Invariant held.old.controller }
    ensures kept { Invariant held.new.controller }
{
    match record {
        Record::Calls(call) => {
            let a = buffers.called(*held, call);
            *held = a.next;
            tell(output, a, buffers);
        }
        Record::Alters(name, at, x) => buffers.alter(name, at, x),
        Record::Lends(name, n) => buffers.lend(name, n),
        Record::Nothing => {}
    }
}

// Records to the end of the input, and then what is gathered goes out. A proved loop has to end, and no input has so many records.
fn turns(mut held: SwitchBox, buffers: &mut Buffers, input: &mut Input, output: &mut Told)
    requires { Invariant held.controller }
{
    for _ in 0..u64::MAX {
        let mut bytes = [0u8; 4];
        if input.piece(output, &mut bytes) != Ok(4) {
            break;
        }
        one(&mut held, buffers, output, record_of(bytes));
    }
    output.flush();
}

// A box that was refused power-on, buffers of zeros, and the records of the input.
fn main(rt: HostRuntime) {
    if !arguments::fit(&rt, 1, 1, b"trials [FILE]") {
        return;
    }
    let Ok(mut input) = Input::from(&rt, 1) else {
        return;
    };
    let mut buffers = Buffers {
        program: [0; PROGRAM],
        saved: [0; PROGRAM],
        log: [0; LOG],
        out: [0; OUT],
        sizes: Sizes {
            program: lines::PROGRAM,
            saved: lines::PROGRAM,
            log: boxlog::LEAST_AREA,
            out: 16,
        },
    };
    // before any power-on the box is what a refused one returns; `out` is no program area
    let a = SwitchBox::power_on(&mut buffers.out, &buffers.saved, &buffers.log);
    turns(a.next, &mut buffers, &mut input, &mut Output::new(&rt));
}
