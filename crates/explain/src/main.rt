// The program explain, for the report of 02, item 9: a stored program, from the file that its third argument names or from standard input, started
// at the line of its first argument and followed for the ticks of its second; on standard output how it stops and why, in two lines.
// What is told is in a contract, by specs/Telling.antt; which bytes were read, and which went out, is in none, since the library's have none.
#![tactic(auto)]

use streams::input::Input;
use streams::{Output, arguments};

mod telling;

// One byte more than a program has: a file that fills it is none, and its rest is not read.
const MORE_THAN_A_PROGRAM: usize = lines::PROGRAM + 1;

fn main(rt: HostRuntime) {
    let usage = b"explain [START [LIMIT [FILE]]]";
    if !arguments::fit(&rt, 1, 3, usage) {
        return;
    }
    let Some(start) = arguments::number(&rt, 1, 0, usage) else {
        return;
    };
    let Some(limit) = arguments::number(&rt, 2, explanation::MOST_TICKS, usage) else {
        return;
    };
    let Ok(mut input) = Input::from(&rt, 3) else {
        return;
    };
    let mut program = [0u8; MORE_THAN_A_PROGRAM];
    let Ok(n) = input.piece(&mut Output::<0>::new(&rt), &mut program) else {
        return;
    };
    let mut output = telling::told_whole(&rt, &program[..n], start, limit);
    output.flush();
}
