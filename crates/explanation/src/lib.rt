// How a program that is started at a line stops, and why, or that it still runs after so many ticks: 02, item 9.
// Definitions: specs/Report.antt for the answer and its refusals, specs/Facts.antt for what it is proved to be.
#![tactic(auto)]

ghost use Rattle.std.specs.Prelude.{◌≡◌, true, Some, ◌≤◌, ◌<◌};
ghost use Rattle.formats.specs.Numbers.{res_of};
ghost use Rattle.lines.specs.Program.{IsProgram};
ghost use Rattle.running.specs.Invariant.{RunInvariant};
ghost use Rattle.running.specs.Known.{Tabled};
ghost use Rattle.explanation.specs.Refusals.{number_of as number_of_refusal, distinct as distinct_refusals};
ghost use Rattle.explanation.specs.Report.{outcome, report, cause_number};
ghost use Rattle.explanation.specs.NextDue.{NextDue};

use formats::Numbered;
use running::known::Known;
use running::{How, Ran, Run, known};

mod causes;

// Why a program stopped.
#[derive(Clone, Copy, Debug, PartialEq, Eq)]
pub enum Cause {
    // 006: the line of the For that holds the counter
    ForLine(u8),
    // 007: the counter sought
    Sought(u8),
    // 008: whether some For of that counter stands above
    ForAbove(bool),
    // 013: the State line last held
    StateLine(u8),
}

// How a program stopped: the event, its tick from the start, which is tick 0, the line and the cause; 013 in the start itself, and every
// event but 006, 007, 008 and 013, have none.
#[derive(Clone, Copy, Debug, PartialEq, Eq)]
pub struct Stop {
    pub event: u8,
    pub tick: u32,
    pub line: u8,
    pub cause: Option<Cause>,
}

// Why it is not told how a program stops.
#[derive(Clone, Copy, Debug, PartialEq, Eq)]
pub enum Refusal {
    // not of 1,600 bytes
    NotProgram = 30,
    // a start line above 199
    NoSuchLine = 60,
    // a limit above the most ticks
    LimitTooLarge = 61,
}

impl Numbered for Refusal {
    ghost number_of = { number_of_refusal };

    fn number(self) -> u8 {
        self as u8
    }

    ghost distinct = { distinct_refusals };
}

// The most ticks for which a program is followed.
pub const MOST_TICKS: u64 = 100000;

// The tick on which the line behind a held State falls due. The loops are not freed yet, where it ends the program.
fn next_due(held: Run, p: &[u8], table: &[Known]) -> Ran
    requires { IsProgram p.now × (held.on ≡ true) × (held.wait ≤ 1) × (RunInvariant held) × (Tabled p.now table.now) }
    ensures due { NextDue p.now held result }
{
    let step = held.onward();
    let run = step.run;
    match step.how {
        How::Ends(event) => Ran {
            run,
            event,
            lines: 0,
        },
        _ => known::due(run, p, table),
    }
}

// A start at line k, followed for so many ticks. Each turn takes all ticks of the State line that is held. What the outputs are at the start
// makes no difference.
fn followed(p: &[u8], k: u8, limit: u32) -> Option<Stop>
    requires { IsProgram p.now × (k < 200) × (limit ≤ 100000) }
    ensures answer { result ≡ outcome p.now k 0 limit }
{
    let table = known::known_of(p);
    // the run before the last call: that with which the start begins, or that which held a State line before the tick
    let mut held = Run::begun(k, 0);
    let mut ran = known::due(held, p, &table);
    let mut tick: u32 = 0;
    // Kept: a turn is a State line held, however long; nothing is counted.
    while ran.event == 0 {
        let wait = ran.run.wait as u32;
        if limit - tick < wait {
            return None;
        }
        tick += wait;
        held = ran.run;
        held.wait = 1;
        ran = next_due(held, p, &table);
    }
    Some(causes::stop_of(p, tick, held, ran))
}

// How a program stops that is started at a line, whatever the bytes are and however many; or that it still runs after that many ticks; or the
// first refusal that applies.
#[tactic(auto, using(crate::proofs::Order::no_program, crate::proofs::Order::no_line, crate::proofs::Order::no_limit, crate::proofs::Order::well_told))]
pub fn report(p: &[u8], start: u64, limit: u64) -> Result<Option<Stop>, Refusal>
    ensures answer { res_of number_of_refusal result ≡ report p.now start limit }
{
    if p.len() != lines::PROGRAM {
        return Err(Refusal::NotProgram);
    }
    if 199 < start {
        return Err(Refusal::NoSuchLine);
    }
    if MOST_TICKS < limit {
        return Err(Refusal::LimitTooLarge);
    }
    Ok(followed(p, start as u8, limit as u32))
}

impl From<Cause> for u8 {
    ghost from_gives = { λ c n. n ≡ cause_number (Some c) };

    // The cause as a number.
    fn from(cause: Cause) -> u8 {
        match cause {
            Cause::ForLine(k) => k,
            Cause::Sought(c) => c,
            Cause::ForAbove(yes) => yes as u8,
            Cause::StateLine(k) => k,
        }
    }
}
