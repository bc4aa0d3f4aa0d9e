// The ticks of a run of lines: it is summed, and a loop is its count times the run of lines inside it. Definitions: specs/Ticks.antt, and
// specs/Summing.antt for what is kept of a sum.
ghost use Rattle.std.specs.Prelude.{◌≡◌, ◌+◌, ◌≤◌, ◌<◌};
ghost use Rattle.formats.specs.Numbers.{res_of};
ghost use Rattle.lines.specs.Program.{IsProgram};
ghost use Rattle.duration.specs.Refusals.{number_of};
ghost use Rattle.duration.specs.Summing.{more_ticks, capped, no_sum, plain_sum, joined, repeated, sum_of, told_of, Nests};

use crate::Refusal;
use lines::Line;

// The ticks of a run of lines, up to one more than are told, and whether an idle loop, or a Bad line, is in it.
#[derive(Clone, Copy, Default)]
pub struct Sum {
    pub ticks: u64,
    pub idle: bool,
    pub bad: bool,
}

// One more than the most ticks that are told: it stands for any number above them.
const MORE: u64 = crate::MOST_TICKS + 1;

impl Sum {
    // A line behind it that begins no loop.
    #[tactic(auto, unfolding(crate::specs::Summing::joined, crate::specs::Report::capped_at))]
    fn with_line(mut self, line: Line) -> Sum
        requires { self.ticks ≤ more_ticks }
        ensures sum { result ≡ joined self (plain_sum line) }
    {
        match line {
            Line::State { outputs: _, time } => self.ticks = (self.ticks + time as u64).min(MORE),
            Line::Bad => self.bad = true,
            Line::For { .. } | Line::Next { .. } => {}
        }
        self
    }

    // Another sum behind it.
    #[tactic(auto, unfolding(crate::specs::Summing::joined, crate::specs::Report::capped_at))]
    fn joined(self, s: Sum) -> Sum
        requires { (self.ticks ≤ more_ticks) × (s.ticks ≤ more_ticks) }
        ensures sum { result ≡ joined self s }
    {
        Sum {
            ticks: (self.ticks + s.ticks).min(MORE),
            idle: self.idle || s.idle,
            bad: self.bad || s.bad,
        }
    }

    // So many times.
    #[tactic(auto, unfolding(crate::specs::Summing::repeated, crate::specs::Report::capped_at))]
    fn repeated(self, count: u16) -> Sum
        requires { self.ticks ≤ more_ticks }
        ensures sum { result ≡ repeated count self }
    {
        Sum {
            ticks: (self.ticks * count as u64).min(MORE),
            idle: self.idle || 0 < count && self.ticks == 0,
            bad: self.bad,
        }
    }

    // What is told of a program with this sum up to its end: the last three refusals, or its ticks.
    #[tactic(auto, using(crate::proofs::Answers::idle_told, crate::proofs::Answers::bad_told, crate::proofs::Answers::over_told, crate::proofs::Answers::ticks_told))]
    pub fn told(self) -> Result<u64, Refusal>
        ensures answer { res_of number_of result ≡ told_of self }
    {
        if self.idle {
            return Err(Refusal::IdleLoop);
        }
        if self.bad {
            return Err(Refusal::BadLine);
        }
        if crate::MOST_TICKS < self.ticks {
            return Err(Refusal::TooLong);
        }
        Ok(self.ticks)
    }
}

// The run of lines from `at` to before `end`.
#[cycle(looped_sequence)]
pub fn sequence(p: &[u8], at: usize, end: usize) -> Sum
    requires { IsProgram p.now × (end ≤ 200) × (Nests p.now at end) }
    ensures sum { result ≡ sum_of p.now at end }
{
    let mut sum = Sum::default();
    let mut i = at;
    // Kept: behind a loop the line after its Next comes, a step that no range makes; an iterator of such steps would be no plainer.
    while i < end {
        let line = lines::line_at(p, i);
        if let Line::For { counter, count } = line {
            let n = lines::next_after(p, counter, i as u8).unwrap() as usize;
            sum = sum.joined(looped(p, i, n, count));
            i = n + 1;
        } else {
            sum = sum.with_line(line);
            i += 1;
        }
    }
    sum
}

// The loop from the For on line `at` to its Next on line n: its count times the run of lines inside it.
#[cycle(looped_sequence)]
fn looped(p: &[u8], at: usize, n: usize, count: u16) -> Sum
    requires { IsProgram p.now × (at < n) × (n < 200) × (Nests p.now (at + 1) n) }
    ensures sum { result ≡ repeated count (sum_of p.now (at + 1) n) }
{
    sequence(p, at + 1, n).repeated(count)
}
