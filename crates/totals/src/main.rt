// The program totals of 02, item 11: emptied logs, each in a file that an argument names, in the order of their emptying; on standard output for each
// channel how often it closed and opened and for how many ticks it was closed, and then how many changes the logs lost. No more than one log is kept.
// What is told is in contracts, by specs/Telling.antt; which bytes were read, and which went out, is in none, since the library's have none.
#![tactic(auto)]

ghost use Rattle.std.specs.Prelude.{ℕ, ◌≡◌, Ok};
ghost use Rattle.streams.specs.Gathering.{nothing_gathered};
ghost use Rattle.totals.specs.Telling.{begun, Turns, Ends, Tells};

use channels::{Beside, Channel, Refusal};
use streams::input::{Failed, Input};
use streams::{Output, arguments};
use telling::BLOCK;

mod telling;

// One byte more than the most that a log has: a file that fills it is too long, and its rest is not read.
const MORE_THAN_MOST: usize = reader::MOST_BYTES + 1;

// The totals of the logs that were brought forward.
#[derive(Clone, Copy)]
struct Totals {
    channels: [Channel; 32],
    beside: Beside,
}

// A log that is refused.
#[derive(Clone, Copy)]
struct Refused {
    // the argument that names its file
    name: usize,
    // how many bytes it has, at the start of the area that is lent for it
    // Kept: a slice in its place would keep the area lent, and the loop in `turns` lends it anew for each log.
    length: usize,
    why: Refusal,
}

// The next log: all of the file that argument i names. The totals are brought forward by it, or it is refused. A file that could not be opened or
// read was told.
fn turn(
    rt: &HostRuntime,
    i: usize,
    log: &mut [u8],
    totals: &mut Totals,
) -> Result<Option<Refused>, Failed>
    ensures turns { Turns i totals.old result totals.new log.new }
{
    let mut input = Input::file(rt, i)?;
    let n = input.piece(&mut Output::<0>::new(rt), log)?;
    match channels::bring_forward(&mut totals.channels, &log[..n], totals.beside) {
        Ok(beside) => {
            totals.beside = beside;
            Ok(None)
        }
        Err(why) => Ok(Some(Refused {
            name: i,
            length: n,
            why,
        })),
    }
}

// All channels open at tick 0, and no log read.
fn begin() -> Totals
    ensures begun { result ≡ begun }
{
    let unused = Channel {
        closings: 0,
        openings: 0,
        ticks: 0,
    };
    let beside = Beside {
        tick: 0,
        word: 0,
        unknown: 0,
        more: false,
    };
    Totals {
        channels: [unused; 32],
        beside,
    }
}

// The logs of the arguments below number `count`, one after the other, to the last one or to one that is refused or cannot be read.
fn turns(
    rt: &HostRuntime,
    count: usize,
    log: &mut [u8],
    totals: &mut Totals,
) -> Result<Option<Refused>, Failed>
    requires { totals.old ≡ begun }
    ensures ends { Ends count result totals.new log.new }
{
    for i in 1..count {
        let refused = turn(rt, i, log, totals)?;
        if refused.is_some() {
            return Ok(refused);
        }
    }
    Ok(None)
}

// What goes to standard output: the totals, or the refusal alone.
fn told(rt: &HostRuntime, refused: Option<Refused>, totals: &Totals, log: &[u8]) -> Output<BLOCK>
    requires { (count : ℕ) × Ends count (Ok refused) totals.now log.now }
    ensures tells { Tells refused totals.now log.now result }
{
    match refused {
        Some(refused) => telling::refusal_whole(rt, refused.why),
        None => telling::table_whole(rt, totals),
    }
}

// Which file is refused, and why, on standard error. No name of a file that can be opened is longer than the area for it.
fn tell_refused(rt: &HostRuntime, refused: Refused, totals: &Totals, log: &[u8])
    requires { (count : ℕ) × Ends count (Ok (Some refused)) totals.now log.now }
{
    let mut name = [0u8; 4096];
    let k = arguments::word(rt, refused.name, &mut name).unwrap_or(0);
    let message = telling::message_whole(
        rt,
        &name[..k],
        refused.why,
        totals.beside,
        &log[..refused.length],
    );
    message.say();
}

fn main(rt: HostRuntime) {
    let mut log = [0u8; MORE_THAN_MOST];
    if !arguments::fit(&rt, 1, usize::MAX, b"totals [LOG...]") {
        return;
    }
    let mut totals = begin();
    let Ok(refused) = turns(&rt, arguments::count(&rt), &mut log, &mut totals) else {
        return;
    };
    let mut output = told(&rt, refused, &totals, &log);
    output.flush();
    if let Some(refused) = refused
        && output.is_open()
    {
        tell_refused(&rt, refused, &totals, &log);
    }
}
