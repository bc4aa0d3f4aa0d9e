// The program loglist of 02: the emptied log, from the file that its argument names or from standard input, as text on standard output. Nothing
// goes out before all of it is checked.
#![tactic(auto)]

use streams::input::Input;
use streams::{Output, arguments};

// One byte more than the most that a log has: a file that fills it is too long, and its rest is not read.
const MORE_THAN_MOST: usize = reader::MOST_BYTES + 1;

fn main(rt: HostRuntime) {
    let mut log = [0u8; MORE_THAN_MOST];
    let mut text = [0u8; reader::text::MOST_TEXT];
    if !arguments::fit(&rt, 1, 1, b"loglist [FILE]") {
        return;
    }
    let Ok(mut input) = Input::from(&rt, 1) else {
        return;
    };
    let Ok(n) = input.piece(&mut Output::<0>::new(&rt), &mut log) else {
        return;
    };
    let length = reader::text::list(&log[..n], &mut text);
    streams::write_whole(&rt, streams::first(&text, length));
}
