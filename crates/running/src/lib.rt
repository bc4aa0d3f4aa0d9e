// The part of the box that a running program moves, and what a start and a tick do to it.
// A run is passed by value, some times in a call and never for a For or a Next. A call that runs no line reads nothing of the program.
#![tactic(auto)]

ghost use Rattle.std.specs.Prelude.{◌≡◌, true, [], ◌<◌};
ghost use Rattle.lines.specs.Program.{IsProgram};
ghost use Rattle.lines.specs.declared.Line.TheVariants.{State};
ghost use Rattle.running.specs.Running.{free, all_free, fresh_run, begun, with_outputs, stopped, onward, run_line};
ghost use Rattle.running.specs.Running.{stops, run_due, start, tick};
ghost use Rattle.running.specs.Invariant.{RunInvariant};

use lines::Line;

pub mod known;
mod loops;

// A loop counter: 0 when free, and the line of the For that holds it.
// Kept: 0 for a free one, which the C interface has in this struct, and 213-216 show.
#[repr(C)]
#[derive(Clone, Copy)]
pub struct Counter {
    pub count: u16,
    pub line: u8,
}

// Kept: the C interface has this struct, with a flag and the numbers beside it, and theorems over calls speak of each of them.
#[repr(C)]
#[derive(Clone, Copy)]
pub struct Run {
    // a program runs (also when it is paused)
    pub on: bool,
    // the line now held, or where the program stopped
    pub line: u8,
    // the next line falls due on the tick with this number from now
    pub wait: u16,
    // the output word: output n is bit n-1
    pub outputs: u32,
    pub counters: [Counter; 4],
}

// What one line led to.
#[derive(Clone, Copy)]
pub enum How {
    // a State line is held
    Holds,
    // the program ends with this event
    Ends(u8),
    // the next line falls due at once
    GoesOn,
}

#[derive(Clone, Copy)]
pub struct Step {
    pub run: Run,
    pub how: How,
}

// What a For or a Next led to: its counter after it, the line then due or stopped on, and how. It is all that such a line changes of a
// run, so the loop of a call passes on no whole run, which would be copied on the stack at each line.
#[derive(Clone, Copy)]
pub struct Turn {
    pub held: Counter,
    pub line: u8,
    pub how: How,
}

// What a start or a tick did: the run after it, the event raised (0 for none), the number of For and Next lines run.
// Kept: the event as a number, as 212 shows it; the running rules and the theorems on events speak of it so (demands/ByTheRules, Stops).
#[derive(Clone, Copy)]
pub struct Ran {
    pub run: Run,
    pub event: u8,
    pub lines: u16,
}

// ---- counters

// A counter that is free.
fn free() -> Counter
    ensures free { result ≡ free }
{
    Counter { count: 0, line: 0 }
}

// The four counters, each free.
fn all_free() -> [Counter; 4]
    ensures free { result ≡ all_free }
{
    [free(); 4]
}

impl Run {
    // The run at power-on: stopped on line 000, with outputs 0.
    pub fn fresh() -> Run
        ensures run { result ≡ fresh_run }
    {
        Run {
            on: false,
            line: 0,
            outputs: 0,
            wait: 0,
            counters: all_free(),
        }
    }

    // The run that a start at line k begins with.
    pub fn begun(k: u8, outputs: u32) -> Run
        ensures run { result ≡ begun k outputs }
    {
        Run {
            on: true,
            line: k,
            outputs,
            wait: 0,
            counters: all_free(),
        }
    }

    // All 32 outputs are set.
    pub fn with_outputs(mut self, word: u32) -> Run
        ensures run { result ≡ with_outputs word self }
    {
        self.outputs = word;
        self
    }

    // The loops are freed, and outputs and line stay.
    pub fn stopped(self) -> Run
        ensures run { result ≡ stopped self }
    {
        Run {
            on: false,
            line: self.line,
            outputs: self.outputs,
            wait: 0,
            counters: all_free(),
        }
    }

    // To the next line; on line 199 the program ends with event 009.
    pub fn onward(mut self) -> Step
        ensures step { result ≡ onward self }
    {
        if self.line < 199 {
            self.line += 1;
            return Step {
                run: self,
                how: How::GoesOn,
            };
        }
        Step {
            run: self,
            how: How::Ends(9),
        }
    }

    // A State line sets the outputs. It is held, or, with time 0, the program ends with event 011.
    fn run_state(mut self, outputs: u32, time: u16) -> Step
        ensures step { result ≡ run_line [] (State outputs time) self }
    {
        self.outputs = outputs;
        if time == 0 {
            return Step {
                run: self,
                how: How::Ends(11),
            };
        }
        self.wait = time;
        Step {
            run: self,
            how: How::Holds,
        }
    }

    // ---- the lines of one call

    // The program stops with an event, after n lines.
    fn ended(self, event: u8, n: u16) -> Ran
        ensures ran { result ≡ stops event n self }
    {
        Ran {
            run: self.stopped(),
            event,
            lines: n,
        }
    }

    // The last line of a call, after n that counted: a State line is run, a Bad one ends the program with event 014; for any other, which
    // would be the 401st, it stops with event 013.
    fn last_due(self, p: &[u8], n: u16) -> Ran
        requires { IsProgram p.now × (RunInvariant self) }
        ensures ran { result ≡ run_due p.now 0 n self }
    {
        match lines::line_at(p, self.line as usize) {
            Line::State { outputs, time } => {
                let s = self.run_state(outputs, time);
                match s.how {
                    How::Ends(event) => s.run.ended(event, n),
                    _ => Ran {
                        run: s.run,
                        event: 0,
                        lines: n,
                    },
                }
            }
            Line::Bad => self.ended(14, n),
            _ => self.ended(13, n),
        }
    }

    // Lines are run until one is held or ends the program, at most 400 of them For or Next.
    // Put into its callers, so that a tick keeps under its limit of stack.
    #[inline(always)]
    fn run_due(self, p: &[u8]) -> Ran
        requires { IsProgram p.now × (self.on ≡ true) × (RunInvariant self) }
        ensures ran { result ≡ run_due p.now 400 0 self }
    {
        let mut run = self;
        for n in 0..400 {
            let line = lines::line_at(p, run.line as usize);
            let Some(counter) = lines::counter_of(line) else {
                return run.last_due(p, n);
            };
            let c = (counter - 1) as usize;
            let t = loops::turn_of(p, line, run.line, run.counters[c]);
            run.counters[c] = t.held;
            run.line = t.line;
            if let How::Ends(event) = t.how {
                return run.ended(event, n + 1);
            }
        }
        run.last_due(p, 400)
    }

    // One tick taken unpaused: a State line is held on, or the program goes on to the line after it.
    pub fn tick(mut self, p: &[u8]) -> Ran
        requires { IsProgram p.now × (RunInvariant self) }
        ensures ran { result ≡ tick p.now self }
    {
        if !self.on {
            return Ran {
                run: self,
                event: 0,
                lines: 0,
            };
        }
        if 1 < self.wait {
            self.wait -= 1;
            return Ran {
                run: self,
                event: 0,
                lines: 0,
            };
        }
        let s = self.onward();
        match s.how {
            How::Ends(event) => s.run.ended(event, 0),
            _ => s.run.run_due(p),
        }
    }
}

// A start at line k with the outputs as they stand; all loops are free.
pub fn start(p: &[u8], k: u8, outputs: u32) -> Ran
    requires { IsProgram p.now × (k < 200) }
    ensures ran { result ≡ start p.now k outputs }
{
    Run::begun(k, outputs).run_due(p)
}
