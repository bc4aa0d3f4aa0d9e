// The lines of a call by what is known of the program: each line was read once, and the Next of each For was searched for once. The box itself
// has no room for this; a report that follows a program for long has.
ghost use Rattle.std.specs.Prelude.{◌≡◌, true, ◌<◌};
ghost use Rattle.lines.specs.Program.{IsProgram, line_at};
ghost use Rattle.running.specs.Running.{run_due};
ghost use Rattle.running.specs.Invariant.{RunInvariant};
ghost use Rattle.running.specs.Due.{Due};
ghost use Rattle.running.specs.Known.{IsKnown, Tabled};

use crate::{How, Ran, Run, loops};
use lines::Line;

// What is known of a line: the line itself, and of a For the line of its Next, if it has one.
#[derive(Clone, Copy)]
pub struct Known {
    pub line: Line,
    pub next: Option<u8>,
}

// What is known of line k.
fn known_at(p: &[u8], k: u8) -> Known
    requires { IsProgram p.now × (k < 200) }
    ensures known { IsKnown p.now k result }
{
    let line = lines::line_at(p, k as usize);
    let next = match line {
        Line::For { counter, .. } => lines::next_after(p, counter, k),
        _ => None,
    };
    Known { line, next }
}

// What is known of a program, line by line.
pub fn known_of(p: &[u8]) -> [Known; 200]
    requires { IsProgram p.now }
    ensures known { Tabled p.now result }
{
    // all zeros, which are cheap to lay
    let mut table = [Known {
        line: lines::end_mark(),
        next: None,
    }; 200];
    for k in 0..200 {
        table[k as usize] = known_at(p, k);
    }
    table
}

// The last line of a call, after n that counted: a For or a Next is one too many. By `run_due`, which the box calls too: `last_due` has one
// caller, or the box's stack grows.
fn last_known(run: Run, p: &[u8], line: Line, n: u16) -> Ran
    requires { IsProgram p.now × (run.on ≡ true) × (RunInvariant run) × (line ≡ line_at p.now run.line) }
    ensures ran { result ≡ run_due p.now 0 n run }
{
    if lines::counter_of(line).is_some() {
        return run.ended(13, n);
    }
    let ran = run.run_due(p);
    Ran {
        run: ran.run,
        event: ran.event,
        lines: n,
    }
}

// Lines are run until one is held or ends the program, at most 400 of them For or Next. Where the program has ended, its loops may not be
// freed yet: who asks why it ended finds in them what the counters held.
pub fn due(start: Run, p: &[u8], table: &[Known]) -> Ran
    requires { IsProgram p.now × (start.on ≡ true) × (RunInvariant start) × (Tabled p.now table.now) }
    ensures due { Due p.now start result }
{
    let mut run = start;
    for n in 0..400 {
        let known = table[run.line as usize];
        let Some(counter) = lines::counter_of(known.line) else {
            return last_known(run, p, known.line, n);
        };
        let c = (counter - 1) as usize;
        let t = loops::turn_known(known, run.line, run.counters[c]);
        run.counters[c] = t.held;
        run.line = t.line;
        if let How::Ends(event) = t.how {
            return Ran {
                run,
                event,
                lines: n + 1,
            };
        }
    }
    let last = table[run.line as usize];
    last_known(run, p, last.line, 400)
}
