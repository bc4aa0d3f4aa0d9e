// The two lines that are told of a program, gathered for output. Definitions: specs/Telling.antt.
ghost use Rattle.std.specs.Prelude.{Some, true, [], ◌++◌, ◌≡◌};
ghost use Rattle.formats.specs.Numbers.{res_of};
ghost use Rattle.streams.specs.Gathering.{Follows};
ghost use Rattle.explanation.specs.Refusals.{number_of};
ghost use Rattle.explanation.specs.Report.{report};
ghost use Rattle.explanation.specs.declared.Cause.TheVariants.{ForLine, Sought, StateLine};
ghost use Rattle.explain.specs.Telling.{read_text, cause_field, fields, first_line, seconds, busy_advice, above_reason, plain_reason, reason, stop_sentence};
ghost use Rattle.explain.specs.Telling.{refusal_sentence, running_sentence, sentence, line_end, two_lines, Readable};

use explanation::{Cause, Refusal, Stop};
use formats::{Error, Text};
use lines::Line;
use streams::Output;

// How many bytes are gathered before they go out: both lines have room.
const BLOCK: usize = 512;

pub type Told = Output<BLOCK>;

// Each function below puts text behind what is gathered.

// Ticks as seconds.
#[tactic(auto, using(streams::proofs::Following::follows_more), unfolding(crate::specs::Telling::seconds, formats::specs::Checks::text))]
fn put_seconds(output: &mut Told, ticks: u64)
    ensures follows { Follows BLOCK output.old (seconds ticks) output.new }
{
    output.put_number(ticks / 10, b'.');
    output.put_digits(10, 1, ticks);
}

// A line as a read of it over the wire answers.
fn put_read(output: &mut Told, l: Line)
    ensures follows { Follows BLOCK output.old (read_text l) output.new }
{
    let mut chars = [0u8; 15];
    let mut text = Text::new(&mut chars);
    if lines::is_bad(l) {
        text.error(Error::BadLine);
    } else {
        texts::put_line_text(&mut text, l);
    }
    output.put(text.written());
}

// ---- the first line

// The last field.
#[tactic(auto, unfolding(formats::specs::Checks::text))]
fn put_cause(output: &mut Told, cause: Option<Cause>)
    ensures follows { Follows BLOCK output.old (cause_field cause) output.new }
{
    match cause {
        Some(Cause::ForLine(k)) => output.put_digits(10, 3, k as u64),
        Some(Cause::Sought(c)) => output.put_digits(10, 1, c as u64),
        Some(Cause::ForAbove(true)) => output.put(b"yes"),
        Some(Cause::ForAbove(false)) => output.put(b"no"),
        Some(Cause::StateLine(k)) => output.put_digits(10, 3, k as u64),
        None => output.put(b"-"),
    }
}

// Event, tick, line and cause.
#[tactic(auto, using(streams::proofs::Following::follows_more), unfolding(crate::specs::Telling::fields, formats::specs::Checks::text))]
fn put_fields(output: &mut Told, stop: Stop)
    ensures follows { Follows BLOCK output.old (fields stop) output.new }
{
    output.put_digits(10, 3, stop.event as u64);
    output.put(b" ");
    output.put_number(stop.tick as u64, b' ');
    output.put_digits(10, 3, stop.line as u64);
    output.put(b" ");
    put_cause(output, stop.cause);
}

// ---- the second line

// 006: what to do about a counter that the For on line k holds, where the program stopped on this line.
#[tactic(auto, unfolding(crate::specs::Telling::busy_advice, formats::specs::Checks::text))]
fn put_busy_advice(output: &mut Told, k: u8, line: u8)
    ensures follows { Follows BLOCK output.old (busy_advice k line) output.new }
{
    if k < line {
        output.put(b"Give the inner loop another counter.");
    } else {
        output.put(b"Two loops cross: end the inner one before the outer one.");
    }
}

// 006.
#[tactic(auto, using(streams::proofs::Following::follows_more), unfolding(crate::specs::Telling::reason, formats::specs::Checks::text))]
fn put_busy(output: &mut Told, k: u8, line: u8, c: u8)
    ensures follows { Follows BLOCK output.old (reason (Some (ForLine k)) 6 line c) output.new }
{
    output.put(b"counter ");
    output.put_digits(10, 1, c as u64);
    output.put(b" was still in use by the For on line ");
    output.put_digits(10, 3, k as u64);
    output.put(b". ");
    put_busy_advice(output, k, line);
}

// 007.
#[tactic(auto, using(streams::proofs::Following::follows_more), unfolding(crate::specs::Telling::reason, formats::specs::Checks::text))]
fn put_sought(output: &mut Told, n: u8)
    ensures follows { Follows BLOCK output.old (reason (Some (Sought n)) 7 0 0) output.new }
{
    output.put(b"no Next of counter ");
    output.put_digits(10, 1, n as u64);
    output.put(b" stands on a later line. Write N");
    output.put_digits(10, 1, n as u64);
    output.put(b" on the line where the loop ends.");
}

// 008.
#[tactic(auto, using(streams::proofs::Following::follows_more), unfolding(crate::specs::Telling::above_reason, formats::specs::Checks::text))]
fn put_above(output: &mut Told, above: bool, c: u8)
    ensures follows { Follows BLOCK output.old (above_reason above c) output.new }
{
    if above {
        output.put(b"counter ");
        output.put_digits(10, 1, c as u64);
        output.put(
            b" was not in use, although a For of it stands above. Start at that For or above it, or take this Next out.",
        );
    } else {
        output.put(b"no For of counter ");
        output.put_digits(10, 1, c as u64);
        output.put(b" stands above. Write one there, or take this Next out.");
    }
}

// 013 behind a State line.
fn put_over(output: &mut Told, k: u8)
    ensures follows { Follows BLOCK output.old (reason (Some (StateLine k)) 13 0 0) output.new }
{
    output.put(b"more than 400 For and Next lines fell due in one tick, behind the State on line ");
    output.put_digits(10, 3, k as u64);
    output.put(b". Put a State with a time above 0 into the loop.");
}

// An event that has no cause.
#[tactic(auto, unfolding(crate::specs::Telling::plain_reason, formats::specs::Checks::text))]
fn put_plain(output: &mut Told, event: u8)
    ensures follows { Follows BLOCK output.old (plain_reason event) output.new }
{
    match event {
        9 => output.put(
            b"the program went on past line 199, the last one. Write an end mark, S00000000000000, on the line where it ends.",
        ),
        11 => output.put(b"the program came to its end mark. Nothing has to be done."),
        13 => output.put(
            b"more than 400 For and Next lines fell due in the start itself. Put a State with a time above 0 into the loop.",
        ),
        _ => output.put(b"its eight bytes are no State, For or Next. Write this line again."),
    }
}

// Why the program stopped, on a line that names counter c.
#[tactic(auto, unfolding(crate::specs::Telling::reason, formats::specs::Checks::text))]
fn put_reason(output: &mut Told, cause: Option<Cause>, event: u8, line: u8, c: u8)
    ensures follows { Follows BLOCK output.old (reason cause event line c) output.new }
{
    match cause {
        Some(Cause::ForLine(k)) => put_busy(output, k, line, c),
        Some(Cause::Sought(n)) => put_sought(output, n),
        Some(Cause::ForAbove(above)) => put_above(output, above, c),
        Some(Cause::StateLine(k)) => put_over(output, k),
        None => put_plain(output, event),
    }
}

// Why it stopped on line l.
fn put_stop(output: &mut Told, l: Line, stop: Stop)
    ensures follows { Follows BLOCK output.old (stop_sentence l stop) output.new }
{
    output.put(b"Stopped after ");
    put_seconds(output, stop.tick as u64);
    output.put(b" s on line ");
    output.put_digits(10, 3, stop.line as u64);
    output.put(b" (");
    put_read(output, l);
    output.put(b"): ");
    // a reason that names a counter is one of a line that has it
    let c = lines::counter_of(l).unwrap_or(0);
    put_reason(output, stop.cause, stop.event, stop.line, c);
}

// Why nothing is told of it.
#[tactic(auto, unfolding(crate::specs::Telling::refusal_sentence, formats::specs::Checks::text))]
fn put_refusal(output: &mut Told, e: Refusal)
    ensures follows { Follows BLOCK output.old (refusal_sentence (number_of e)) output.new }
{
    match e {
        Refusal::NotProgram => output.put(
            b"This is no stored program: it has fewer or more than 1600 bytes. Give a file of 200 lines of 8 bytes.",
        ),
        Refusal::NoSuchLine => output.put(
            b"The start line is above 199, the last line. Give a line of 0 to 199.",
        ),
        Refusal::LimitTooLarge => output.put(
            b"The limit is above 100000 ticks. Give a limit of 0 to 100000.",
        ),
    }
}

// That it still runs.
#[tactic(auto, using(streams::proofs::Following::follows_more), unfolding(crate::specs::Telling::running_sentence, formats::specs::Checks::text))]
fn put_running(output: &mut Told, limit: u64)
    ensures follows { Follows BLOCK output.old (running_sentence limit) output.new }
{
    output.put(b"Still running after ");
    put_seconds(output, limit);
    output.put(b" s: nothing stops it up to the limit. A limit can be as large as 100000 ticks.");
}

// ---- both

// The first line of an answer.
#[tactic(auto, using(streams::proofs::Following::follows_more), unfolding(formats::specs::Checks::text))]
fn put_first_line(output: &mut Told, answer: Result<Option<Stop>, Refusal>)
    ensures follows { Follows BLOCK output.old (first_line (res_of number_of answer) ++ line_end) output.new }
{
    match answer {
        Err(e) => output.put_error(e, b'\n'),
        Ok(None) => output.put(b"running\n"),
        Ok(Some(stop)) => {
            put_fields(output, stop);
            output.put(b"\n");
        }
    }
}

// The sentence of an answer.
fn put_sentence(output: &mut Told, p: &[u8], limit: u64, answer: Result<Option<Stop>, Refusal>)
    requires { Readable p.now (res_of number_of answer) }
    ensures follows { Follows BLOCK output.old (sentence p.now limit (res_of number_of answer)) output.new }
{
    match answer {
        Err(e) => put_refusal(output, e),
        Ok(None) => put_running(output, limit),
        Ok(Some(stop)) => put_stop(output, lines::line_at(p, stop.line as usize), stop),
    }
}

// What is told of a program that was read, or of bytes that are none.
#[tactic(auto, using(streams::proofs::Following::follows_more), unfolding(crate::specs::Telling::two_lines, formats::specs::Checks::text))]
fn put_told(output: &mut Told, p: &[u8], start: u64, limit: u64)
    ensures follows { Follows BLOCK output.old (two_lines p.now limit (report p.now start limit)) output.new }
{
    let answer = explanation::report(p, start, limit);
    put_first_line(output, answer);
    put_sentence(output, p, limit, answer);
    output.put(b"\n");
}

// The same where nothing is gathered yet: the block has room for all of it.
pub fn put_whole(output: &mut Told, p: &[u8], start: u64, limit: u64)
    requires { output.old.waits ≡ [] }
    ensures open { output.new.open ≡ output.old.open }
    ensures whole { output.new.waits ≡ two_lines p.now limit (report p.now start limit) }
{
    put_told(output, p, start, limit);
}

// The two lines of a program, in an output of their own.
pub fn told_whole(rt: &HostRuntime, p: &[u8], start: u64, limit: u64) -> Told
    ensures open { result.open ≡ true }
    ensures whole { result.waits ≡ two_lines p.now limit (report p.now start limit) }
{
    let mut output = Output::new(rt);
    put_whole(&mut output, p, start, limit);
    output
}
