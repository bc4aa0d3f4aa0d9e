// The record that the box's main loop keeps, the five calls that alter it where it stands, the text of an emptied log, how long a program
// takes, how and why one stops, the program of an inclining plan, and the caller's channel records brought forward: a library for C.
// Each of the five calls the method of the box and stores the box that this returned. Definition: `call` of controller/specs/Calls.antt, as for the
// by-value calls; specs/InRecord.antt for what stays in the record and what is said beside it. The header is host/nizhalepu.h.
#![tactic(auto)]

ghost use Rattle.std.specs.Prelude.{◌≡◌, [], length};
ghost use Rattle.controller.specs.Controller.{fresh};
ghost use Rattle.controller.specs.Refusals.{power_on, byte, tick, press, emptying};
ghost use Rattle.controller.specs.Calls.{call};
ghost use Rattle.controller.specs.Invariant.{Invariant};
ghost use Rattle.controller.specs.Controller.{areas};
ghost use Rattle.calls.specs.Returns.{refusal_in, lines_in, written_in};
ghost use Rattle.nizhalepu.specs.InRecord.{in_record};
ghost use Rattle.formats.specs.Checks.{refusal_of};
ghost use Rattle.formats.specs.Writing.{Wrote};
ghost use Rattle.reader.specs.Listing.{listing_in};
ghost use Rattle.duration.specs.Report.{report};
ghost use Rattle.explanation.specs.Report.{report as stop_report};
ghost use Rattle.planner.specs.Planned.{planned, area_of};
ghost use Rattle.nizhalepu.specs.Durations.{duration_of};
ghost use Rattle.nizhalepu.specs.Stops.{explained_of};
ghost use Rattle.channels.specs.Bringing.{bringing, answer_of, records_of};

use calls::{Done, Refusal, SwitchBox};
use channels::{Beside, Channel};
use formats::Numbered;

// What a call says; the state stays in the record.
#[repr(C)]
#[derive(Clone, Copy)]
pub struct Said {
    // the number of the refusal, 0 where the call is accepted
    pub refusal: u8,
    // For and Next lines run
    pub lines: u16,
    // bytes written to the start of the reply or of the destination
    pub written: usize,
}

// What was done, or the number of the refusal.
fn told(done: Result<Done, Refusal>) -> Said
    ensures refusal { result.refusal ≡ refusal_in done }
    ensures lines { result.lines ≡ lines_in done }
    ensures written { result.written ≡ written_in done }
{
    match done {
        Ok(done) => Said {
            refusal: 0,
            lines: done.lines,
            written: done.written,
        },
        Err(refusal) => Said {
            refusal: refusal.number(),
            lines: 0,
            written: 0,
        },
    }
}

// Power-on fills the record, whatever it held.
#[unsafe(no_mangle)]
pub extern "C" fn nizhalepu_power_on(
    state: &mut SwitchBox,
    program: &mut [u8],
    saved: &[u8],
    log: &[u8],
) -> Said
    ensures call { in_record result state.new (areas program.new saved.now log.now [])
        ≡ call power_on (fresh 0) (areas program.old saved.now log.now []) }
{
    let answer = SwitchBox::power_on(program, saved, log);
    *state = answer.next;
    told(answer.done)
}

// One wire byte.
#[unsafe(no_mangle)]
pub extern "C" fn nizhalepu_byte(
    state: &mut SwitchBox,
    x: u8,
    program: &mut [u8],
    saved: &mut [u8],
    log: &mut [u8],
    reply: &mut [u8],
) -> Said
    requires { Invariant state.old.controller }
    ensures call { in_record result state.new (areas program.new saved.new log.new reply.new)
        ≡ call (byte x) state.old.controller (areas program.old saved.old log.old reply.old) }
{
    let answer = SwitchBox::byte(*state, x, program, saved, log, reply);
    *state = answer.next;
    told(answer.done)
}

// One tick.
#[unsafe(no_mangle)]
pub extern "C" fn nizhalepu_tick(state: &mut SwitchBox, program: &[u8], log: &mut [u8]) -> Said
    requires { Invariant state.old.controller }
    ensures call { in_record result state.new (areas program.now [] log.new [])
        ≡ call tick state.old.controller (areas program.now [] log.old []) }
{
    let answer = SwitchBox::tick(*state, program, log);
    *state = answer.next;
    told(answer.done)
}

// One press of a button.
#[unsafe(no_mangle)]
pub extern "C" fn nizhalepu_press(
    state: &mut SwitchBox,
    n: u32,
    program: &[u8],
    log: &mut [u8],
) -> Said
    requires { Invariant state.old.controller }
    ensures call { in_record result state.new (areas program.now [] log.new [])
        ≡ call (press n) state.old.controller (areas program.now [] log.old []) }
{
    let answer = SwitchBox::press(*state, n, program, log);
    *state = answer.next;
    told(answer.done)
}

// Emptying the log.
#[unsafe(no_mangle)]
pub extern "C" fn nizhalepu_empty(state: &mut SwitchBox, log: &[u8], destination: &mut [u8]) -> Said
    requires { Invariant state.old.controller }
    ensures call { in_record result state.new (areas [] [] log.now destination.new)
        ≡ call emptying state.old.controller (areas [] [] log.now destination.old) }
{
    let answer = SwitchBox::empty(*state, log, destination);
    *state = answer.next;
    told(answer.done)
}

// The text of an emptied log, or of its refusal.
#[unsafe(no_mangle)]
pub extern "C" fn nizhalepu_list(log: &[u8], text: &mut [u8]) -> usize
    ensures wrote { Wrote 0 (listing_in (length text.old) log.now) text.old result text.new }
{
    reader::text::list(log, text)
}

// How long a program takes.
#[repr(C)]
#[derive(Clone, Copy)]
pub struct Duration {
    // the number of the refusal, 0 where the program has a duration
    pub refusal: u8,
    // the ticks from a start at line 000 to event 011, 0 where it is refused
    pub ticks: u64,
}

// How long a program takes from a start at line 000 to event 011, or why that is not told.
#[unsafe(no_mangle)]
pub extern "C" fn nizhalepu_duration(program: &[u8]) -> Duration
    ensures duration { result ≡ duration_of (report program.now) }
{
    match duration::report(program) {
        Ok(ticks) => Duration { refusal: 0, ticks },
        Err(e) => Duration {
            refusal: e.number(),
            ticks: 0,
        },
    }
}

// How a program stopped that was started at a line.
#[repr(C)]
#[derive(Clone, Copy)]
pub struct Explained {
    // the tick from the start, which is tick 0; 0 where it is refused or still runs
    pub tick: u32,
    // the number of the refusal, 0 where there is none
    pub refusal: u8,
    // the event that stopped it, 0 where it is refused or still runs
    pub event: u8,
    // the line where it stopped, 0 where it is refused or still runs
    pub line: u8,
    // 006, 013: a line; 007: a counter; 008: 1 for yes, 0 for no; 255 for none
    pub cause: u8,
}

// How a program stops that is started at a line, and why; or that it still runs after so many ticks; or why that is not told.
#[unsafe(no_mangle)]
pub extern "C" fn nizhalepu_explain(program: &[u8], start: u64, limit: u64) -> Explained
    ensures explained { result ≡ explained_of (stop_report program.now start limit) }
{
    match explanation::report(program, start, limit) {
        Ok(Some(stop)) => Explained {
            tick: stop.tick,
            refusal: 0,
            event: stop.event,
            line: stop.line,
            cause: stop.cause.map_or(255, u8::from),
        },
        Ok(None) => Explained {
            tick: 0,
            refusal: 0,
            event: 0,
            line: 0,
            cause: 255,
        },
        Err(e) => Explained {
            tick: 0,
            refusal: e.number(),
            event: 0,
            line: 0,
            cause: 255,
        },
    }
}

// The program of an inclining plan, in the area; or the number of the refusal, and the area as it was.
#[unsafe(no_mangle)]
pub extern "C" fn nizhalepu_plan(plan: &[u32], program: &mut [u8]) -> u8
    ensures refusal { result ≡ refusal_of (planned plan.now program.old) }
    ensures area { program.new ≡ area_of (planned plan.now program.old) program.old }
{
    match planner::write(plan, program) {
        Ok(()) => 0,
        Err(e) => e.number(),
    }
}

// The caller's 32 channel records brought forward by a log, where they stand; or the number of the refusal, and all as it was.
#[unsafe(no_mangle)]
pub extern "C" fn nizhalepu_bring_forward(
    channels: &mut [Channel],
    log: &[u8],
    beside: Beside,
) -> channels::Answer
    ensures answer { result ≡ answer_of beside (bringing channels.old log.now beside) }
    ensures records { channels.new
        ≡ records_of channels.old (bringing channels.old log.now beside) }
{
    match channels::bring_forward(channels, log, beside) {
        Ok(next) => channels::Answer {
            refusal: 0,
            beside: next,
        },
        Err(e) => channels::Answer {
            refusal: e.number(),
            beside,
        },
    }
}
