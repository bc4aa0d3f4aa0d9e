// Switching totals: how often each of the 32 channels closed and opened, and for how many ticks it was closed, by logs in the order of their emptying.
// Definitions: specs/Totals.antt for what the records of a log say of a channel, specs/Bringing.antt for what comes of a log.
#![tactic(auto)]

ghost use Rattle.std.specs.Prelude.{◌≡◌, ◌*◌, ◌≤◌, length};
ghost use Rattle.std.specs.List.{zip, list_all};
ghost use Rattle.formats.specs.Numbers.{res_of};
ghost use Rattle.reader.specs.declared.Layout.TheVariants.{Sixteen};
ghost use Rattle.reader.specs.Layout.{size_of};
ghost use Rattle.reader.specs.Reading.{told_of};
ghost use Rattle.channels.specs.Numbers.{number_of, distinct, Read as by_reader};
ghost use Rattle.channels.specs.Totals.{map_from};
ghost use Rattle.channels.specs.Bringing.{log_for, are_totals, bringing, beside_of, records_of, held_of};
ghost use Rattle.channels.specs.Walk.{first_of, joining, beside_told, lost_told, Counted, sum_with, moved_of, next_of};

use formats::Numbered;
use reader::{Layout, Told};

mod gains;

// The record of a channel: how often it closed and opened, and the ticks for which it was closed.
#[repr(C)]
#[derive(Clone, Copy)]
pub struct Channel {
    pub closings: u64,
    pub openings: u64,
    pub ticks: u64,
}

// What is kept beside the 32 records: tick and word of the last record read, how many changes the logs lost, and whether it may be more.
// Kept: the C interface has this struct, with the flag beside the number.
#[repr(C)]
#[derive(Clone, Copy)]
pub struct Beside {
    pub tick: u32,
    pub word: u32,
    pub unknown: u64,
    pub more: bool,
}

// The number of the refusal, 0 where there is none, and what is kept beside the records then.
// Kept: the C interface has this struct.
#[repr(C)]
#[derive(Clone, Copy)]
pub struct Answer {
    pub refusal: u8,
    pub beside: Beside,
}

// What the records of a log bring a channel: closings, openings, and the ticks for which it was closed. While they are counted, the last are those up
// to `since`, the tick at which it was switched last.
#[derive(Clone, Copy)]
pub struct Gain {
    pub closings: u32,
    pub openings: u32,
    pub ticks: u32,
    pub since: u32,
}

// What a log brings the channels, and what is kept beside their records then.
#[derive(Clone, Copy)]
pub struct Counts {
    pub gains: [Gain; 32],
    pub beside: Beside,
}

// The 32 records by value, and the answer.
#[derive(Clone, Copy)]
pub struct Held {
    pub channels: [Channel; 32],
    pub answer: Answer,
}

// Why a log is refused.
#[derive(Clone, Copy, Debug, PartialEq, Eq)]
pub enum Refusal {
    // the reader refuses it; and of 12-byte records, which it accepts, as one of the wrong mark
    Read(reader::Refusal),
    // its first tick is earlier than the last one read
    Earlier,
    // its first earlier word is not the last word read
    OtherWord,
    // a total would pass the end
    PassesEnd,
    // there are other than 32 channel records
    OtherCount,
}

impl Numbered for Refusal {
    ghost number_of = { number_of };

    fn number(self) -> u8 {
        match self {
            Refusal::Read(e) => e.number(),
            Refusal::Earlier => 72,
            Refusal::OtherWord => 73,
            Refusal::PassesEnd => 74,
            Refusal::OtherCount => 75,
        }
    }

    ghost distinct = { distinct };
}

impl From<reader::Refusal> for Refusal {
    ghost from_gives = { λ e r. r ≡ by_reader e };

    fn from(e: reader::Refusal) -> Refusal {
        Refusal::Read(e)
    }
}

// ---- a log

// What the reader tells of a log of 16-byte records, where there are n channel records.
fn read_for(n: usize, log: &[u8]) -> Result<Told, Refusal>
    ensures answer { res_of number_of result ≡ told_of Sixteen (log_for n log.now) }
{
    if n != 32 {
        return Err(Refusal::OtherCount);
    }
    let told = reader::read(log)?;
    match told.layout {
        Layout::Twelve => Err(Refusal::Read(reader::Refusal::WrongMark)),
        Layout::Sixteen => Ok(told),
    }
}

// The first of the n records of a log, where there is one, joins to the last one read.
fn join(n: usize, log: &[u8], beside: Beside) -> Result<(), Refusal>
    requires { size_of Sixteen * n ≤ length log.now }
    ensures joins { res_of number_of result ≡ joining beside (first_of n log.now) }
{
    if n == 0 {
        return Ok(());
    }
    let first = reader::record_at(Layout::Sixteen, log, 0);
    if first.tick < beside.tick {
        return Err(Refusal::Earlier);
    }
    if first.word != beside.word {
        return Err(Refusal::OtherWord);
    }
    Ok(())
}

// What is kept beside the totals behind a log, where the number unknown does not pass the end.
fn beside_after(told: Told, beside: Beside) -> Option<Beside>
    ensures after { result ≡ beside_told beside told.last (lost_told told.gap) }
{
    let Some(last) = told.last else {
        return Some(beside);
    };
    let lost = told.gap.map_or(0, |gap| gap.lost);
    let unknown = beside.unknown.checked_add(lost as u64)?;
    Some(Beside {
        tick: last.tick,
        word: gains::word_from(last),
        unknown,
        more: beside.more || lost == u32::MAX,
    })
}

// What a log brings n channel records, but for a total of theirs that would pass the end; or its refusal.
pub fn count(n: usize, log: &[u8], beside: Beside) -> Result<Counts, Refusal>
    ensures counted { Counted n log.now beside (res_of number_of result) }
{
    let told = read_for(n, log)?;
    join(told.records, log, beside)?;
    let after = beside_after(told, beside).ok_or(Refusal::PassesEnd)?;
    let gains = gains::gained(log, told.records, beside, after);
    Ok(Counts {
        gains,
        beside: after,
    })
}

// ---- the channels' records

// The record of a channel, brought forward, where no total passes the end.
#[tactic(auto, unfolding(crate::specs::Bringing::are_totals))]
pub fn forward(channel: Channel, gain: Gain) -> Option<Channel>
    ensures moved { result ≡ moved_of channel gain }
{
    Some(Channel {
        closings: channel.closings.checked_add(gain.closings as u64)?,
        openings: channel.openings.checked_add(gain.openings as u64)?,
        ticks: channel.ticks.checked_add(gain.ticks as u64)?,
    })
}

// No total of a channel passes the end.
fn fits(channel: Channel, gain: Gain) -> bool
    ensures fits { result ≡ are_totals (sum_with channel gain) }
{
    forward(channel, gain).is_some()
}

// No total of any channel passes the end.
fn all_fit(channels: &[Channel], gains: &[Gain; 32]) -> bool
    ensures fit { result ≡ list_all (λ p. are_totals (sum_with p.0 p.1)) (zip channels.now gains.now) }
{
    channels
        .iter()
        .zip(gains)
        .all(|(channel, gain)| fits(*channel, *gain))
}

// The records of the channels, each brought forward if it fits.
fn bring(channels: &mut [Channel], gains: &[Gain; 32])
    requires { length channels.old ≡ 32 }
    ensures brought { channels.new ≡ map_from (next_of gains.now) channels.old 0 }
{
    for (i, channel) in channels.iter_mut().enumerate() {
        if let Some(next) = forward(*channel, gains[i]) {
            *channel = next;
        }
    }
}

// The 32 records brought forward by a log where they stand, all of them or, where it is refused, none; and what is kept beside them then.
pub fn bring_forward(
    channels: &mut [Channel],
    log: &[u8],
    beside: Beside,
) -> Result<Beside, Refusal>
    ensures answer { res_of number_of result ≡ beside_of (bringing channels.old log.now beside) }
    ensures records { channels.new ≡ records_of channels.old (bringing channels.old log.now beside) }
{
    let counts = count(channels.len(), log, beside)?;
    if !all_fit(channels, &counts.gains) {
        return Err(Refusal::PassesEnd);
    }
    bring(channels, &counts.gains);
    Ok(counts.beside)
}

// The same, of 32 records by value.
pub fn brought(mut channels: [Channel; 32], log: &[u8], beside: Beside) -> Held
    ensures held { result ≡ held_of channels beside (bringing channels log.now beside) }
{
    let answer = match bring_forward(&mut channels, log, beside) {
        Ok(next) => Answer {
            refusal: 0,
            beside: next,
        },
        Err(e) => Answer {
            refusal: e.number(),
            beside,
        },
    };
    Held { channels, answer }
}
