// What a finished command asks for, and the reply to it, which is written straight into the area that is lent for it.
// Definitions: those of the layer `controller`, specs/Deeds.antt, of every state that has the parts which a function is given. An area that a
// function is not lent stays, whatever it holds.
#![tactic(auto)]

ghost use Rattle.std.specs.Prelude.{◌≡◌, ◌≤◌, length};
ghost use Rattle.lines.specs.Program.{IsProgram};
ghost use Rattle.formats.specs.Checks.{text};
ghost use Rattle.formats.specs.Errors.{number_of};
ghost use Rattle.formats.specs.Numbers.{res_of};
ghost use Rattle.formats.specs.Digits.{error_text};
ghost use Rattle.formats.specs.Writing.{Wrote};
ghost use Rattle.special.specs.Special.{mode_of};
ghost use Rattle.variables.specs.Variables.{value};
ghost use Rattle.wire.specs.Invariant.{WireInvariant};
ghost use Rattle.controller.specs.declared.Controller.{Controller};
ghost use Rattle.controller.specs.Controller.{with_panel};
ghost use Rattle.controller.specs.Deeds.{read, ended, asked};

use formats::{Error, Numbered, Text};
use running::Run;
use special::Mode;
use variables::Panel;
use wire::{Asked, Wire};

// What the command collected so far asks for, by the seven checks; a read of a Bad line, behind them, is E024.
pub fn asked(w: Wire, mode: Mode, panel: Panel, program: &[u8]) -> Result<Asked, Error>
    requires { WireInvariant w × IsProgram program.now }
    ensures heard { (c : Controller) → c.wire ≡ w → mode_of c.run.on c.paused ≡ mode → c.panel ≡ panel
        → res_of number_of result ≡ asked c program.now }
{
    match wire::command(w, mode, panel.parameter)? {
        Asked::Read(k) if variables::is_bad_at(panel, program, k) => Err(Error::BadLine),
        q => Ok(q),
    }
}

// The panel after a read of k: that of 212 clears the event.
pub fn panel_read(panel: Panel, k: u8) -> Panel
    ensures panel { (c : Controller) → with_panel result c ≡ read k (with_panel panel c) }
{
    if k == 212 {
        panel.with_event(0, false)
    } else {
        panel
    }
}

// ---- the three replies, each ended by byte 13; the bytes behind it stay, and its length is returned

// E and the number of the error.
pub fn reply_error<E: Numbered>(e: E, reply: &mut [u8]) -> usize
    requires { 16 ≤ length reply.old }
    ensures wrote { Wrote 0 (ended (error_text (E.number_of e))) reply.old result reply.new }
{
    let mut text = Text::new(reply);
    text.error(e);
    text.char(b'\r');
    text.at
}

// What a read of address k shows.
pub fn reply_value(
    panel: Panel,
    run: Run,
    paused: bool,
    program: &[u8],
    k: u8,
    reply: &mut [u8],
) -> usize
    requires { IsProgram program.now × (k ≤ 216) × (16 ≤ length reply.old) }
    ensures wrote { Wrote 0 (ended (value panel run paused program.now k)) reply.old result reply.new }
{
    let mut text = Text::new(reply);
    variables::put_value(&mut text, panel, run, paused, program, k);
    text.char(b'\r');
    text.at
}

// "An accepted write answers OK."
pub fn reply_ok(reply: &mut [u8]) -> usize
    requires { 16 ≤ length reply.old }
    ensures wrote { Wrote 0 (ended (text "OK")) reply.old result reply.new }
{
    let ok = b"OK\r";
    reply[..ok.len()].copy_from_slice(ok);
    ok.len()
}
