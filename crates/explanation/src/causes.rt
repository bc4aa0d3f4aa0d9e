// The cause of a stop, by its event: 02, item 9. Definitions: `cause_of` and `stop_of` of specs/Report.antt.
ghost use Rattle.std.specs.Prelude.{◌≡◌, ◌≤◌, ◌<◌, eqb};
ghost use Rattle.lines.specs.Program.{IsProgram};
ghost use Rattle.lines.specs.Loops.{counter_at};
ghost use Rattle.lines.specs.Searches.{some_before};
ghost use Rattle.running.specs.Moments.{last_due};
ghost use Rattle.running.specs.Due.{freed};
ghost use Rattle.explanation.specs.Report.{first_due, cause_of, stop_of};

use crate::{Cause, Stop};
use lines::Line;
use running::{Ran, Run};

// Whether some For of counter c stands on a line above line k, run or not, whatever its count.
#[tactic(auto, using(crate::proofs::Above::is_none, crate::proofs::Above::none_yet, crate::proofs::Above::none_more))]
fn is_for_above(p: &[u8], c: u8, k: u8) -> bool
    requires { IsProgram p.now × (k < 200) × (1 ≤ c) }
    ensures test { result ≡ some_before (λ j. eqb (counter_at p.now j) c) k }
{
    for j in 0..k {
        if lines::for_counter(lines::line_at(p, j as usize)) == Some(c) {
            return true;
        }
    }
    false
}

// The cause of an event that came at this tick and on this line; `held` is the run before the tick, `last` that of its last moment, if it came
// with 006.
#[tactic(auto, using(lines::proofs::Pairs::counter_ranged, lines::proofs::Pairs::next_ranged), unfolding(crate::specs::Report::cause_of))]
fn cause_of(p: &[u8], event: u8, tick: u32, line: u8, held: Run, last: Run) -> Option<Cause>
    requires { IsProgram p.now × (line < 200) × (event ≡ 6 → last ≡ last_due p.now 400 (first_due tick held)) }
    ensures cause { result ≡ cause_of p.now event tick line held }
{
    match (event, lines::line_at(p, line as usize)) {
        (6, Line::For { counter, .. }) => {
            let holder = last.counters[(counter - 1) as usize];
            Some(Cause::ForLine(holder.line))
        }
        (7, Line::For { counter, .. }) => Some(Cause::Sought(counter)),
        (8, Line::Next { counter }) => Some(Cause::ForAbove(is_for_above(p, counter, line))),
        (13, _) if 0 < tick => Some(Cause::StateLine(held.line)),
        _ => None,
    }
}

// How the program stopped in the call `ran`, which was the start or the tick with this number; its loops may not be freed yet.
#[tactic(auto, using(running::proofs::Freeing::freed_event, running::proofs::Freeing::freed_line), unfolding(crate::specs::Report::stop_of))]
pub fn stop_of(p: &[u8], tick: u32, held: Run, ran: Ran) -> Stop
    requires { IsProgram p.now × (ran.run.line < 200) × (ran.event ≡ 6 → ran.run ≡ last_due p.now 400 (first_due tick held)) }
    ensures stop { result ≡ stop_of p.now tick held (freed ran) }
{
    let event = ran.event;
    let line = ran.run.line;
    Stop {
        event,
        tick,
        line,
        cause: cause_of(p, event, tick, line, held, ran.run),
    }
}
