// A For and a Next, each by what it needs of the run: the number of its line and its own counter.
// Definitions: `run_line` of specs/Running.antt; specs/Turn.antt for how a turn is put back into the run.
ghost use Rattle.std.specs.Prelude.{◌≡◌, true, List, [], ℕ, ◌<◌, IfSome};
ghost use Rattle.std.specs.Option.{unwrap_or};
ghost use Rattle.lines.specs.Program.{IsProgram, next_after};
ghost use Rattle.lines.specs.declared.Line.TheVariants.{For, Next};
ghost use Rattle.running.specs.declared.Run.{Run};
ghost use Rattle.running.specs.Running.{at_line, with_counter, onward, is_for_or_next};
ghost use Rattle.running.specs.Turn.{turned, stopping, Leads};
ghost use Rattle.running.specs.Known.{IsKnown};

use crate::known::Known;
use crate::{Counter, How, Turn};
use lines::Line;

// The program ends with an event on line k, and its counter stays as it is.
fn ended(event: u8, k: u8, held: Counter) -> Turn
    ensures turn { result ≡ stopping event k held }
{
    Turn {
        held,
        line: k,
        how: How::Ends(event),
    }
}

// To the line after k; past line 199 the program ends with event 009.
fn past(held: Counter, k: u8) -> Turn
    ensures turn { (c : ℕ) (s : Run) → turned c result s ≡ onward (at_line k (with_counter c held s)) }
{
    if k < 199 {
        return Turn {
            held,
            line: k + 1,
            how: How::GoesOn,
        };
    }
    ended(9, k, held)
}

// A For line takes its counter and goes on; with a busy counter event 006, with no later Next of it event 007. With count 0000 it
// takes none and goes on from that Next. `next` is the line of the first later Next.
fn for_turn(next: Option<u8>, count: u16, k: u8, held: Counter) -> Turn
    ensures turn { (p : List ℕ) (c : ℕ) → unwrap_or next 200 ≡ next_after p c k → IfSome next (λ n. n < 200)
        → Leads p (For c count) k held result }
{
    if 0 < held.count {
        return ended(6, k, held);
    }
    let Some(next) = next else {
        return ended(7, k, held);
    };
    if count == 0 {
        return past(held, next);
    }
    past(Counter { count, line: k }, k)
}

// The same, where the Next is searched for.
fn turn_for(p: &[u8], counter: u8, count: u16, k: u8, held: Counter) -> Turn
    requires { IsProgram p.now × (k < 200) }
    ensures turn { Leads p.now (For counter count) k held result }
{
    for_turn(lines::next_after(p, counter, k), count, k, held)
}

// A Next line takes one off its counter: above zero to the line after the For, at zero on; with a free counter event 008. The count alone
// says that it is free, whatever stands above in the text.
fn turn_next(k: u8, held: Counter) -> Turn
    requires { held.line < 199 }
    ensures turn { (c : ℕ) → Leads [] (Next c) k held result }
{
    let rounds = held.count;
    if rounds == 0 {
        return ended(8, k, held);
    }
    let left = rounds - 1;
    if 0 < left {
        let from = held.line;
        let back = from + 1;
        return Turn {
            held: Counter {
                count: left,
                line: from,
            },
            line: back,
            how: How::GoesOn,
        };
    }
    past(crate::free(), k)
}

// The line that is due, a For or a Next, which was read already.
pub fn turn_of(p: &[u8], line: Line, k: u8, held: Counter) -> Turn
    requires { IsProgram p.now × (k < 200) × (held.line < 199) × (is_for_or_next line ≡ true) }
    ensures turn { Leads p.now line k held result }
{
    match line {
        Line::For { counter, count } => turn_for(p, counter, count, k, held),
        _ => turn_next(k, held),
    }
}

// The same, of which is known what a reader of the line and a search find.
pub fn turn_known(known: Known, k: u8, held: Counter) -> Turn
    requires { held.line < 199 }
    ensures turn { (p : List ℕ) → IsKnown p k known → is_for_or_next known.line ≡ true → Leads p known.line k held result }
{
    match known.line {
        Line::For { count, .. } => for_turn(known.next, count, k, held),
        _ => turn_next(k, held),
    }
}
