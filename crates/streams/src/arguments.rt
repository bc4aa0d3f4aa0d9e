// The arguments of a program, numbered from 1. A wrong one is told on standard error, with how to call the program.
ghost use Rattle.std.specs.Prelude.{MatchOption};
ghost use Rattle.io.specs.Counts.{IsPrefixLen};

use crate::say;
use std::env::{Env, FillError};

// No argument is longer: Linux takes at most 131,072 bytes, with the 0 that ends it.
const LONGEST: usize = 131072;

// Whether there is an argument i.
pub(crate) fn is_given(rt: &HostRuntime, i: usize) -> bool {
    let mut none = [0u8; 0];
    !matches!(rt.arg(i, &mut none), Err(FillError::NotPresent))
}

// One more than there are arguments: number 0 is the program itself.
pub fn count(rt: &HostRuntime) -> usize {
    (0..usize::MAX)
        .find(|i| !is_given(rt, *i))
        .unwrap_or(usize::MAX)
}

// Argument i comes to the start of the buffer, as much of it as there is room for. The number of its bytes is returned, none where there is no such one.
pub fn word(rt: &HostRuntime, i: usize, buffer: &mut [u8]) -> Option<usize>
    ensures counts { MatchOption result (Unit {0}) (λ n. IsPrefixLen n buffer.new) }
{
    match rt.arg(i, buffer) {
        Ok(n) => Some(n),
        Err(FillError::TooLong) => Some(buffer.len()),
        Err(FillError::NotPresent) => None,
    }
}

// Whether argument i is this word, as the name of an option.
pub fn is(rt: &HostRuntime, i: usize, expected: &[u8]) -> bool {
    let mut name = [0u8; 4096];
    match word(rt, i, &mut name) {
        Some(n) => &name[..n] == expected,
        None => false,
    }
}

// Whether argument i is an option: it begins with `-`, and more stands behind it. `-` alone is standard input.
fn is_option(rt: &HostRuntime, i: usize) -> bool {
    let mut start = [0u8; 2];
    word(rt, i, &mut start) == Some(2) && start[0] == b'-'
}

// What is wrong with argument i, and how to call the program.
fn wrong(rt: &HostRuntime, what: &[u8], i: usize, usage: &[u8]) {
    let mut name = [0u8; 4096];
    say(rt, what);
    if let Some(n) = word(rt, i, &mut name) {
        say(rt, &name[..n]);
    }
    say(rt, b"'\nhow to call it: ");
    say(rt, usage);
    say(rt, b"\n");
}

// Whether the program takes these arguments: from number `from` on at most so many, and no option among them. If not, the first that is
// wrong is told.
pub fn fit(rt: &HostRuntime, from: usize, most: usize, usage: &[u8]) -> bool {
    for i in from..count(rt) {
        if is_option(rt, i) {
            wrong(rt, b"there is no option '", i, usage);
            return false;
        }
        if i - from >= most {
            wrong(rt, b"one argument too many: '", i, usage);
            return false;
        }
    }
    true
}

// Argument i as a number in decimal, or another number where there is no such argument. None is one that is no number, which is told.
pub fn number(rt: &HostRuntime, i: usize, otherwise: u64, usage: &[u8]) -> Option<u64> {
    if !is_given(rt, i) {
        return Some(otherwise);
    }
    let mut digits = [0u8; LONGEST];
    let n = word(rt, i, &mut digits).unwrap_or(0);
    let written = formats::decimal_in(&digits[..n]);
    if written.is_none() {
        wrong(rt, b"no number: '", i, usage);
    }
    written
}
