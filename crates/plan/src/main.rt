// The program plan of 02, item 10: an inclining plan as text, from the file that its argument names or from standard input; on standard output the
// stored program that carries it out, or with --check its table. No more of the text is kept than its numbers.
// What is told is in contracts, by specs/Telling.antt; which bytes were read, and which went out, is in none, since the library's have none.
#![tactic(auto)]

ghost use Rattle.std.specs.Prelude.{IfOk, ◌≡◌};
ghost use Rattle.plantext.specs.Reading.{begin};
ghost use Rattle.plan.specs.Reading.{ReadOn, ReadFrom};

use plantext::Reader;
use streams::input::{Failed, Input};
use streams::{Output, arguments};

mod telling;

// The next piece of the text is read, as far as there is one, and whether to read on: behind a fault nothing more counts. No output waits meanwhile.
#[tactic(auto, using(crate::proofs::Feeding::read_none))]
fn turn(rt: &HostRuntime, input: &mut Input, reader: &mut Reader) -> Result<bool, Failed>
    ensures reads { ReadOn reader.old reader.new }
{
    let mut buffer = [0u8; 4096];
    let mut nothing = Output::<0>::new(rt);
    let n = input.piece(&mut nothing, &mut buffer)?;
    if n == 0 {
        return Ok(false);
    }
    reader.feed(&buffer[..n]);
    Ok(reader.fault.is_none())
}

// Input to its end, or to a fault. A proved loop has to end, and no run uses up so many turns.
#[tactic(auto, using(crate::proofs::Feeding::read_none, crate::proofs::Feeding::read_more))]
fn turns(rt: &HostRuntime, input: &mut Input, reader: &mut Reader) -> Result<(), Failed>
    ensures reads { ReadOn reader.old reader.new }
{
    for _ in 0..u64::MAX {
        if !turn(rt, input, reader)? {
            return Ok(());
        }
    }
    Ok(())
}

// The text of the file that argument i names, or of standard input.
#[tactic(auto, using(crate::proofs::Feeding::read_over))]
fn read(rt: &HostRuntime, i: usize) -> Result<Reader, Failed>
    ensures reads { IfOk result ReadFrom }
{
    let mut input = Input::from(rt, i)?;
    let mut reader = plantext::begin();
    turns(rt, &mut input, &mut reader)?;
    Ok(reader.ended())
}

// What is told of a text that was read.
fn tell(rt: &HostRuntime, reader: &Reader, check: bool) {
    match reader.fault {
        Some(fault) => telling::fault_whole(rt, reader.line, fault).say(),
        None => {
            let mut output = telling::told_read(rt, reader, check);
            output.flush();
        }
    }
}

fn main(rt: HostRuntime) {
    let check = arguments::is(&rt, 1, b"--check");
    let from = if check { 2 } else { 1 };
    if !arguments::fit(&rt, from, 1, b"plan [--check] [FILE]") {
        return;
    }
    if let Ok(reader) = read(&rt, from) {
        tell(&rt, &reader, check);
    }
}
