// What the records of a log bring each channel: one walk over the records, and in each over the bits that it alters. Definitions: specs/Walk.antt.
ghost use Rattle.std.specs.Prelude.{◌≡◌, ◌*◌, ◌≤◌, ◌<◌, length};
ghost use Rattle.reader.specs.declared.Layout.TheVariants.{Sixteen};
ghost use Rattle.reader.specs.Layout.{size_of, most_records};
ghost use Rattle.channels.specs.Totals.{is_closed, is_change, word_from, one_if, beside_after};
ghost use Rattle.channels.specs.Walk.{first_of, Joined, switched_of, closed_for, AllStand, AllBring, AllWithin, AllEnded, Begun};

use crate::{Beside, Gain};
use reader::{Layout, Record};

// The word from a record on: a change's own, and the one that a gap stores.
#[tactic(auto, unfolding(crate::specs::Totals::word_from))]
pub fn word_from(r: Record) -> u32
    ensures word { result ≡ word_from r }
{
    if r.kind == 1 { r.value } else { r.word }
}

// The channel at place i is closed in the word.
#[tactic(auto, unfolding(crate::specs::Totals::is_closed))]
fn is_closed(word: u32, i: usize) -> bool
    requires { i < 32 }
    ensures closed { result ≡ is_closed i word }
{
    (word >> i as u32) % 2 == 1
}

// Of a channel that a record switches: its bit after it is the lowest of w. Without a branch, since nobody can foresee which way it goes.
#[tactic(auto, using(crate::proofs::Switching::switched_by))]
fn switched(gain: Gain, w: u32, tick: u32, counted: u32) -> Gain
    requires { (gain.since ≤ tick) × (gain.ticks ≤ gain.since) × (counted ≤ 1) × (gain.closings < 8192) × (gain.openings < 8192) }
    ensures switched { result ≡ switched_of gain w tick counted }
{
    let closes = w % 2;
    let opens = 1 - closes;
    Gain {
        closings: gain.closings + closes * counted,
        openings: gain.openings + opens * counted,
        ticks: gain.ticks + opens * (tick - gain.since),
        since: tick,
    }
}

// The ticks for which a channel was closed, up to the last record.
#[tactic(auto, unfolding(crate::specs::Walk::closed_for))]
fn closed_for(gain: Gain, last: Beside, i: usize) -> u32
    requires { (i < 32) × (gain.since ≤ last.tick) × (gain.ticks ≤ gain.since) }
    ensures ticks { result ≡ closed_for gain last i }
{
    if is_closed(last.word, i) {
        gain.ticks + (last.tick - gain.since)
    } else {
        gain.ticks
    }
}

// Before the first record: nothing, from that tick on.
pub fn begun(tick: u32) -> [Gain; 32]
    ensures begun { Begun tick result }
{
    let gain = Gain {
        closings: 0,
        openings: 0,
        ticks: 0,
        since: tick,
    };
    [gain; 32]
}

// The gains up to the last record read: a channel that is closed then has been so since it was switched last.
fn ended(begun: [Gain; 32], last: Beside) -> [Gain; 32]
    requires { AllWithin last begun }
    ensures ended { AllEnded begun last result }
{
    let mut gains = begun;
    for (i, gain) in gains.iter_mut().enumerate() {
        gain.ticks = closed_for(*gain, last, i);
    }
    gains
}

// The gains of the channels by the first n records of a log, each of which joins to the one before it.
fn walked(log: &[u8], n: usize, beside: Beside) -> [Gain; 32]
    requires { (size_of Sixteen * n ≤ length log.now) × (n ≤ most_records Sixteen) × Joined beside n log.now }
    ensures gains { AllStand beside (first_of n log.now) result }
{
    let mut gains = begun(beside.tick);
    let mut word = beside.word;
    for k in 0..n {
        let r = reader::record_at(Layout::Sixteen, log, k);
        // the closings and openings of a change count, and those of a gap do not
        let counted = u32::from(r.kind == 1);
        let next = word_from(r);
        let mut altered = word ^ next;
        // Kept: the set bits from the lowest on, which no iterator of the library goes over.
        while altered != 0 {
            let at = altered.trailing_zeros();
            let i = at as usize;
            gains[i] = switched(gains[i], next >> at, r.tick, counted);
            altered &= altered - 1;
        }
        word = next;
    }
    gains
}

// The same up to the last of these records, which leaves `last`.
pub fn gained(log: &[u8], n: usize, beside: Beside, last: Beside) -> [Gain; 32]
    requires { (size_of Sixteen * n ≤ length log.now) × (n ≤ most_records Sixteen) × Joined beside n log.now
        × (last ≡ beside_after beside (first_of n log.now)) }
    ensures gains { AllBring beside (first_of n log.now) result }
{
    let gains = walked(log, n, beside);
    ended(gains, last)
}
