// What is told of the totals, or of a log that is refused, gathered for output. Definitions: specs/Telling.antt.
ghost use Rattle.std.specs.Prelude.{◌≤◌, ◌<◌, true, ◌≡◌, length};
ghost use Rattle.channels.specs.Numbers.{number_of};
ghost use Rattle.streams.specs.Gathering.{Follows};
ghost use Rattle.totals.specs.Telling.{line_of, or_more, unknown_line, table_of, refusal_line};
ghost use Rattle.totals.specs.Telling.{name_text, tick_text, word_text, reason_text, HasFirst, message_of};

use crate::Totals;
use channels::{Beside, Channel, Refusal};
use formats::Numbered;
use reader::{Layout, Record};
use streams::Output;

// What is told on standard output has room in a block of this size,
pub const BLOCK: usize = 4096;

// and a message in one of this size.
pub const MESSAGE: usize = 8192;

// Each function below puts text behind what is gathered.

// ---- the totals

// The line of the channel at place i of the 32.
#[tactic(auto, using(crate::proofs::Table::line_follows))]
fn put_channel(output: &mut Output<BLOCK>, i: usize, c: &Channel)
    requires { i < 32 }
    ensures follows { Follows BLOCK output.old (line_of i c.now) output.new }
{
    output.put_number(i as u64 + 1, b' ');
    output.put_number(c.closings, b' ');
    output.put_number(c.openings, b' ');
    output.put_number(c.ticks, b'\n');
}

// Whether it may be more.
#[tactic(auto, unfolding(formats::specs::Checks::text))]
fn put_more(output: &mut Output<BLOCK>, more: bool)
    ensures follows { Follows BLOCK output.old (or_more more) output.new }
{
    if more {
        output.put(b" or more");
    }
}

// The last line.
#[tactic(auto, using(streams::proofs::Following::follows_more), unfolding(crate::specs::Telling::unknown_line, formats::specs::Checks::text))]
fn put_unknown(output: &mut Output<BLOCK>, beside: Beside)
    ensures follows { Follows BLOCK output.old (unknown_line beside) output.new }
{
    output.put(b"unknown ");
    output.put_decimal(beside.unknown);
    put_more(output, beside.more);
    output.put(b"\n");
}

// All lines.
fn put_table(output: &mut Output<BLOCK>, totals: &Totals)
    ensures follows { Follows BLOCK output.old (table_of totals.now.channels totals.now.beside) output.new }
{
    for (i, c) in totals.channels.iter().enumerate() {
        put_channel(output, i, c);
    }
    put_unknown(output, totals.beside);
}

// The same where nothing is gathered yet, and the block has room for all of it.
#[tactic(auto, using(crate::proofs::Fits::table_whole))]
pub fn table_whole(rt: &HostRuntime, totals: &Totals) -> Output<BLOCK>
    ensures open { result.open ≡ true }
    ensures whole { result.waits ≡ table_of totals.now.channels totals.now.beside }
{
    let mut output = Output::new(rt);
    put_table(&mut output, totals);
    output
}

// ---- a log that is refused

// Its line on standard output, where nothing is gathered yet.
#[tactic(auto, using(crate::proofs::Fits::refusal_whole), unfolding(crate::specs::Telling::refusal_line))]
pub fn refusal_whole(rt: &HostRuntime, why: Refusal) -> Output<BLOCK>
    ensures open { result.open ≡ true }
    ensures whole { result.waits ≡ refusal_line (number_of why) }
{
    let mut output = Output::new(rt);
    output.put_error(why, b'\n');
    output
}

// The file.
fn put_name(output: &mut Output<MESSAGE>, name: &[u8])
    ensures follows { Follows MESSAGE output.old (name_text name.now) output.new }
{
    if name == b"-".as_slice() {
        output.put(b"standard input");
        return;
    }
    output.put(b"'");
    output.put(name);
    output.put(b"'");
}

// An earlier tick than the last one.
#[tactic(auto, using(streams::proofs::Following::follows_more), unfolding(crate::specs::Telling::tick_text, formats::specs::Checks::text))]
fn put_tick(output: &mut Output<MESSAGE>, beside: Beside, first: Record)
    ensures follows { Follows MESSAGE output.old (tick_text beside first) output.new }
{
    output.put(b": expected a first tick of ");
    output.put_decimal(beside.tick as u64);
    output.put(b" or later, found ");
    output.put_decimal(first.tick as u64);
}

// Another word than the last one.
fn put_word(output: &mut Output<MESSAGE>, beside: Beside, first: Record)
    ensures follows { Follows MESSAGE output.old (word_text beside first) output.new }
{
    output.put(b": expected ");
    output.put_digits(16, 8, beside.word as u64);
    output.put(b" as the first earlier word, found ");
    output.put_digits(16, 8, first.word as u64);
}

// What was expected and what was found.
fn put_reason(output: &mut Output<MESSAGE>, why: Refusal, beside: Beside, log: &[u8])
    requires { HasFirst (number_of why) log.now }
    ensures follows { Follows MESSAGE output.old (reason_text (number_of why) beside log.now) output.new }
{
    match why {
        Refusal::Earlier => {
            let first = reader::record_at(Layout::Sixteen, log, 0);
            put_tick(output, beside, first);
        }
        Refusal::OtherWord => {
            let first = reader::record_at(Layout::Sixteen, log, 0);
            put_word(output, beside, first);
        }
        _ => {}
    }
}

// The message.
fn put_message(output: &mut Output<MESSAGE>, name: &[u8], why: Refusal, beside: Beside, log: &[u8])
    requires { HasFirst (number_of why) log.now }
    ensures follows { Follows MESSAGE output.old (message_of name.now (number_of why) beside log.now) output.new }
{
    put_name(output, name);
    output.put(b" is refused with E");
    output.put_digits(10, 3, why.number() as u64);
    put_reason(output, why, beside, log);
    output.put(b"\n");
}

// The same where nothing is gathered yet, and the block has room for all of it.
#[tactic(auto, using(crate::proofs::Fits::message_whole))]
pub fn message_whole(
    rt: &HostRuntime,
    name: &[u8],
    why: Refusal,
    beside: Beside,
    log: &[u8],
) -> Output<MESSAGE>
    requires { (length name.now ≤ 4096) × HasFirst (number_of why) log.now }
    ensures whole { result.waits ≡ message_of name.now (number_of why) beside log.now }
{
    let mut output = Output::new(rt);
    put_message(&mut output, name, why, beside, log);
    output
}
