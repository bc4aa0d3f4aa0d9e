// The program durations of 02: programs of 1,600 bytes, one behind the other, from the files that its arguments name or from standard input; on
// standard output how many ticks each takes, or why that is not told, and then the grand total, a line each. No more than one program is kept.
// What is told of a program is in contracts, by specs/Telling.antt; which bytes were read, and which went out, is in none, since the library's have none.
#![tactic(auto)]

ghost use Rattle.std.specs.Prelude.{Bool};
ghost use Rattle.streams.specs.Gathering.{nothing_gathered, Puts};
ghost use Rattle.formats.specs.Numbers.{res_of};
ghost use Rattle.duration.specs.Refusals.{number_of};
ghost use Rattle.durations.specs.Telling.{line_of, Tells, may_go_on, Turns, Ends, TellsTotal};
ghost use Rattle.std.specs.Prelude.{◌≡◌};

use duration::Refusal;
use streams::input::{Failed, Input};
use streams::{Output, arguments};

// How many bytes are gathered before they go out.
const BLOCK: usize = 4096;

// An answer as a line: the number, or E and three digits.
fn put_answer(output: &mut Output<BLOCK>, answer: Result<u64, Refusal>)
    ensures line { Puts BLOCK output.old (line_of (res_of number_of answer)) output.new }
{
    match answer {
        Ok(n) => output.put_number(n, b'\n'),
        Err(e) => output.put_error(e, b'\n'),
    }
}

// The line of a program, or of a last piece that is none, and the total with it.
fn tell(output: &mut Output<BLOCK>, total: &mut u64, program: &[u8])
    ensures tells { Tells BLOCK output.old total.old program.now output.new total.new }
{
    let answer = duration::report(program);
    put_answer(output, answer);
    *total = duration::total_with(*total, answer);
}

// The next program, as far as there is one, and whether there was one.
fn turn(input: &mut Input, output: &mut Output<BLOCK>, total: &mut u64) -> Result<bool, Failed>
    ensures turns { Turns BLOCK output.old total.old (may_go_on result) output.new total.new }
{
    let mut program = [0u8; lines::PROGRAM];
    let n = input.piece(output, &mut program)?;
    if n == 0 {
        return Ok(false);
    }
    tell(output, total, &program[..n]);
    Ok(true)
}

// Input to its end. A proved loop has to end, and no run uses up so many turns.
fn turns(input: &mut Input, output: &mut Output<BLOCK>, total: &mut u64) -> Result<bool, Failed>
    requires { (output.old ≡ nothing_gathered) × (total.old ≡ 0) }
    ensures ends { Ends BLOCK (may_go_on result) output.new total.new }
{
    for _turn in 0..u64::MAX {
        if !turn(input, output, total)? {
            return Ok(false);
        }
    }
    Ok(true)
}

// The grand total as the last line. What the turns answered is not asked: it ties the contract to them.
fn tell_total(output: &mut Output<BLOCK>, total: u64, on: bool)
    requires { Ends BLOCK on output.old total }
    ensures total { TellsTotal BLOCK on output.old total output.new }
{
    put_answer(output, duration::total_told(total));
}

fn main(rt: HostRuntime) {
    if !arguments::fit(&rt, 1, usize::MAX, b"durations [FILE...]") {
        return;
    }
    let Ok(mut input) = Input::from(&rt, 1) else {
        return;
    };
    let mut output = Output::new(&rt);
    let mut total = 0;
    if let Ok(on) = turns(&mut input, &mut output, &mut total) {
        tell_total(&mut output, total, on);
    }
    output.flush();
}
