// How long a program takes from a start at line 000 to event 011, or why that is not told: 02, item 6.
// Definitions: specs/Report.antt for the answer and its refusals, specs/ByTheRule.antt for what the number is proved to be.
#![tactic(auto)]

ghost use Rattle.std.specs.Prelude.{◌≡◌, ◌+◌};
ghost use Rattle.formats.specs.Numbers.{res_of};
ghost use Rattle.duration.specs.Refusals.{number_of as number_of_refusal, distinct as distinct_refusals};
ghost use Rattle.duration.specs.Report.{report};
ghost use Rattle.duration.specs.Total.{adds, capped_total, told_total};

use formats::Numbered;

mod nesting;
mod sums;

// Why it is not told how long a program takes.
#[derive(Clone, Copy, Debug, PartialEq, Eq)]
pub enum Refusal {
    // a Bad line before the end
    BadLine = 14,
    // not of 1,600 bytes
    NotProgram = 30,
    // loops that cross, or one without its For or its Next
    Tangled = 40,
    // the end is inside a loop
    EndInLoop = 41,
    // no State with time 0
    NoEnd = 42,
    // more ticks than are told, of a program or in all
    TooLong = 43,
    // a loop whose body takes no tick
    IdleLoop = 44,
}

impl Numbered for Refusal {
    ghost number_of = { number_of_refusal };

    fn number(self) -> u8 {
        self as u8
    }

    ghost distinct = { distinct_refusals };
}

// The most ticks that are told.
pub const MOST_TICKS: u64 = 9999999999;

// How long a program takes, or the first refusal that applies, whatever the bytes are and however many.
pub fn report(p: &[u8]) -> Result<u64, Refusal>
    ensures answer { res_of number_of_refusal result ≡ report p.now }
{
    if p.len() != lines::PROGRAM {
        return Err(Refusal::NotProgram);
    }
    let end = lines::end_line(p).ok_or(Refusal::NoEnd)?;
    let nexts = nesting::walked(p, end).ok_or(Refusal::Tangled)?;
    // the end is inside an open loop, however far its Next is
    if nesting::is_across_one(end, 200, nexts) {
        return Err(Refusal::EndInLoop);
    }
    sums::sequence(p, 0, end as usize).told()
}

// ---- the grand total of programs one behind the other

// The most ticks of a grand total that are told.
pub const MOST_TOTAL: u64 = 10 * MOST_TICKS;

// The total so far with one program more: a refused one adds nothing. One more than is told stands for any number above it.
#[tactic(auto, unfolding(crate::specs::Report::capped_at))]
pub fn total_with<E: Numbered + Drop>(total: u64, answer: Result<u64, E>) -> u64
    ensures total { result ≡ capped_total (total + adds (res_of E.number_of answer)) }
{
    total
        .saturating_add(answer.unwrap_or(0))
        .min(MOST_TOTAL + 1)
}

// The grand total, or its refusal.
#[tactic(auto, using(crate::proofs::Totals::refused_over, crate::proofs::Totals::passed_well))]
pub fn total_told(total: u64) -> Result<u64, Refusal>
    ensures answer { res_of number_of_refusal result ≡ told_total total }
{
    if MOST_TOTAL < total {
        return Err(Refusal::TooLong);
    }
    Ok(total)
}
