// The special commands: their codes, when each is allowed, and how far its parameter reaches.
// The types, and a function for each rule.
#![tactic(auto)]

ghost use Rattle.std.specs.Prelude.{◌≡◌};
ghost use Rattle.formats.specs.Checks.{◌or_else◌};
ghost use Rattle.formats.specs.Errors.{number_of};
ghost use Rattle.formats.specs.Numbers.{res_of, res_or};
ghost use Rattle.special.specs.Special.{mode_of, forbidden, allowed, code_of, special_of, in_reach};

use formats::Error;

// The three states of the table of special commands.
#[derive(Clone, Copy, PartialEq, Eq, Debug)]
pub enum Mode {
    Stop,
    Pause,
    Auto,
}

// The eight special commands, each with its code.
#[derive(Clone, Copy, PartialEq, Eq, Debug)]
pub enum Special {
    Stop = 1,
    Pause = 2,
    Start = 3,
    Continue = 4,
    StartAt = 5,
    Execute = 6,
    Load = 7,
    Save = 8,
}

// The table of special commands: a row for each, by the states Stop, Pause and Auto.
const ALLOWED: [[Result<(), Error>; 3]; 8] = [
    [Ok(()), Ok(()), Ok(())], // 001 stop
    [Err(Error::NotRunning), Ok(()), Ok(())], // 002 pause
    [Ok(()), Err(Error::NotStopped), Err(Error::NotStopped)], // 003 start
    [Err(Error::NotPaused), Ok(()), Err(Error::NotPaused)], // 004 continue
    [Ok(()), Err(Error::NotStopped), Err(Error::NotStopped)], // 005 start at
    [Ok(()), Err(Error::NotStopped), Err(Error::NotStopped)], // 006 execute one line
    [Ok(()), Err(Error::NotStopped), Err(Error::NotStopped)], // 007 load
    [Ok(()), Err(Error::NotStopped), Err(Error::NotStopped)], // 008 save
];

// The state of the table: a box that is paused is running too.
pub fn mode_of(on: bool, paused: bool) -> Mode
    ensures state { result ≡ mode_of on paused }
{
    match (on, paused) {
        (false, _) => Mode::Stop,
        (true, true) => Mode::Pause,
        (true, false) => Mode::Auto,
    }
}

// The code of a special command.
// Kept: a function and no From, which is no plainer: u8::from(s) would not say that the number is the command's code.
pub fn code_of(s: Special) -> u8
    ensures code { result ≡ code_of s }
{
    s as u8
}

// The special command of a code; none where no command has it, which is E003 to who asks.
// Kept: a function and no TryFrom, which is no plainer: its type of errors would have one value, and say nothing.
#[tactic(auto, unfolding(crate::specs::Special::special_of))]
pub fn special_of(code: u8) -> Option<Special>
    ensures named { res_or 3 result ≡ special_of code }
{
    match code {
        1 => Some(Special::Stop),
        2 => Some(Special::Pause),
        3 => Some(Special::Start),
        4 => Some(Special::Continue),
        5 => Some(Special::StartAt),
        6 => Some(Special::Execute),
        7 => Some(Special::Load),
        8 => Some(Special::Save),
        _ => None,
    }
}

// Whether a special command is allowed in a state; if not, the error says what it needs: its entry in the table.
#[tactic(auto, using(crate::proofs::Table::entry_tells))]
pub fn allowed(s: Special, mode: Mode) -> Result<(), Error>
    ensures table { res_of number_of result ≡ (allowed s mode or_else forbidden s mode) }
{
    let [stop, pause, auto] = ALLOWED[code_of(s) as usize - 1];
    match mode {
        Mode::Stop => stop,
        Mode::Pause => pause,
        Mode::Auto => auto,
    }
}

// Whether the parameter is within reach of a special command.
pub fn in_reach(s: Special, parameter: u8) -> bool
    ensures reach { result ≡ in_reach s parameter }
{
    match s {
        Special::StartAt => parameter <= 199,
        Special::Execute => parameter <= 200,
        _ => true,
    }
}
