// What programs share: their arguments, the files that these name or standard input, and standard output.
// Output is gathered in a block. It goes out where the next bytes do not fit behind it, and where the program asks, as before it waits for input.
// Definitions: specs/Gathering.antt. Which bytes a read or a write moves, or an argument has, is in no contract, since the library's have none.
#![tactic(auto)]

ghost use Rattle.std.specs.Prelude.{true, ℕ, ◌+◌, [], ◌∷◌, ◌++◌, ◌≡◌, ◌≤◌, ◌<◌, length, take};
ghost use Rattle.formats.specs.Digits.{shown, decimal, error_text};
ghost use Rattle.io.specs.Counts.{IsPrefixLen};
ghost use Rattle.streams.specs.Gathering.{nothing_gathered, more, Puts, Passes, Follows};

use formats::{Numbered, Text};
use std::io::{Error, Write};
use std::marker::Model;

pub mod arguments;
pub mod input;

// Standard output, and the block in which what goes there is gathered.
#[derive(Clone, Copy)]
pub struct Output<const N: usize> {
    // what it writes by: the handle of `main`, which takes no bytes
    rt: HostRuntime,
    block: [u8; N],
    // how many bytes at the start of the block are gathered
    used: usize,
    // no write has failed; once one has, nothing more is written
    open: bool,
}

impl<const N: usize> Model for Output<N> {
    ghost use Rattle.std.specs.Prelude.{take, drop, replicate, length, ◌++◌, ◌-◌, ◌≤◌, ◌≡◌};
    ghost use Rattle.streams.specs.Gathering.{Waiting};
    ghost use Rattle.streams.specs.Whole.{gives_back};

    ghost Value = { Waiting };

    ghost view = { λ o. record { waits = take o.used o.block; «open» = o.open } };

    // what lies behind what is gathered is zero: so the view forgets nothing, and an output may be copied
    ghost invariant = { λ o. (o.used ≤ N) × (length o.block ≡ N) × (drop o.used o.block ≡ replicate (N - o.used) 0) };

    ghost inverse = { λ w. record {
      rt = record { seal = tt };
      block = w.waits ++ replicate (N - length w.waits) 0;
      used = length w.waits;
      «open» = w.open;
    } };

    ghost inverse_ok = { λ o holds. gives_back o holds };
}

// ---- output

// Bytes are written, all of them. A write that failed is told on standard error.
pub fn write_whole(rt: &HostRuntime, bytes: &[u8]) -> bool {
    match rt.write_all(bytes) {
        Ok(()) => true,
        Err(error) => {
            fail(rt, b"cannot write standard output", error);
            false
        }
    }
}

// The first n bytes, all where there are fewer.
pub fn first(bytes: &[u8], n: usize) -> &[u8]
    ensures first { result.now ≡ take n bytes.now }
{
    &bytes[..n.min(bytes.len())]
}

impl<const N: usize> Output<N> {
    // Nothing is gathered.
    pub fn new(rt: &HostRuntime) -> Output<N>
        ensures empty { result ≡ nothing_gathered }
    {
        Output {
            rt: *rt,
            block: [0; N],
            used: 0,
            open: true,
        }
    }

    // No write has failed. No more is gathered than the block has room for.
    pub fn is_open(&self) -> bool
        ensures is { result ≡ self.now.open }
        ensures within { length self.now.waits ≤ N }
    {
        self.open
    }

    // What is gathered.
    fn gathered(&self) -> &[u8]
        ensures is { result.now ≡ self.now.waits }
    {
        &self.block[..self.used]
    }

    // What is gathered goes out.
    pub fn flush(&mut self)
        ensures empty { (self.new.waits ≡ []) × (self.new.open ≡ true → self.old.open ≡ true) }
    {
        if self.open {
            self.open = write_whole(&self.rt, self.gathered());
        }
        if self.used > 0 {
            let none = [0; N];
            self.block = none;
            self.used = 0;
        }
    }

    // What is gathered goes to standard error: it is a message.
    pub fn say(&self) {
        say(&self.rt, self.gathered());
    }

    // What is gathered goes out, where somebody may wait for it.
    fn pass(&mut self, awaited: bool)
        ensures passes { Passes self.old self.new }
    {
        if awaited && self.used > 0 {
            self.flush();
        }
    }

    // Bytes are gathered behind what is there, where they fit.
    fn append(&mut self, bytes: &[u8])
        requires { length self.old.waits + length bytes.now ≤ N }
        ensures follows { self.new ≡ more self.old bytes.now }
    {
        let at = self.used;
        let block = &mut self.block[..];
        block[at..at + bytes.len()].copy_from_slice(bytes);
        self.used = at + bytes.len();
    }

    // Bytes are gathered behind what is there. Where they do not fit, that goes out first; bytes longer than the block go out at once.
    pub fn put(&mut self, bytes: &[u8])
        ensures puts { Puts N self.old bytes.now self.new }
        ensures follows { Follows N self.old bytes.now self.new }
    {
        if bytes.len() <= N - self.used {
            self.append(bytes);
            return;
        }
        self.flush();
        if bytes.len() <= N {
            self.append(bytes);
            return;
        }
        if self.open {
            self.open = write_whole(&self.rt, bytes);
        }
    }

    // The first n bytes are gathered, all where there are fewer.
    pub fn put_first(&mut self, bytes: &[u8], n: usize)
        ensures puts { Puts N self.old (take n bytes.now) self.new }
        ensures follows { Follows N self.old (take n bytes.now) self.new }
    {
        self.put(first(bytes, n));
    }

    // A number in n digits to a base, its last ones: eight to the base 16 for a word, three for a line or an event, one for a counter.
    pub fn put_digits(&mut self, base: u64, n: usize, v: u64)
        requires { (n ≤ 8) × (1 < base) × (base ≤ 16) }
        ensures puts { Puts N self.old (shown base n v) self.new }
        ensures follows { Follows N self.old (shown base n v) self.new }
    {
        let mut digits = [0u8; 8];
        let mut text = Text::new(&mut digits);
        text.digits(base, n, v);
        self.put(text.written());
    }

    // A number in decimal, without leading zeros.
    pub fn put_decimal(&mut self, v: u64)
        ensures puts { Puts N self.old (decimal v) self.new }
        ensures follows { Follows N self.old (decimal v) self.new }
    {
        let mut digits = [0u8; 20];
        let mut text = Text::new(&mut digits);
        text.decimal(v);
        self.put(text.written());
    }

    // A number is gathered, in decimal without leading zeros, and the byte that stands behind it.
    pub fn put_number(&mut self, v: u64, end: u8)
        ensures puts { Puts N self.old (decimal v ++ (end ∷ [])) self.new }
        ensures follows { Follows N self.old (decimal v ++ (end ∷ [])) self.new }
    {
        let mut line = [0u8; 21];
        let mut text = Text::new(&mut line);
        text.decimal(v);
        text.char(end);
        self.put(text.written());
    }

    // A word of 32 bits is gathered, in eight capital hex digits, and the byte that stands behind it.
    pub fn put_word(&mut self, v: u32, end: u8)
        ensures puts { Puts N self.old (shown 16 8 v ++ (end ∷ [])) self.new }
        ensures follows { Follows N self.old (shown 16 8 v ++ (end ∷ [])) self.new }
    {
        let mut line = [0u8; 9];
        let mut text = Text::new(&mut line);
        text.digits(16, 8, v as u64);
        text.char(end);
        self.put(text.written());
    }

    // An error or a refusal is gathered: E, its number in three digits, and the byte that stands behind it.
    pub fn put_error<E: Numbered>(&mut self, e: E, end: u8)
        ensures puts { Puts N self.old (error_text (E.number_of e) ++ (end ∷ [])) self.new }
        ensures follows { Follows N self.old (error_text (E.number_of e) ++ (end ∷ [])) self.new }
    {
        let mut line = [0u8; 5];
        let mut text = Text::new(&mut line);
        text.error(e);
        text.char(end);
        self.put(text.written());
    }
}

// ---- messages

// Bytes go to standard error. Where it takes none, nobody can be told.
pub fn say(rt: &HostRuntime, bytes: &[u8]) {
    let _ = Print::write_all(&rt.stderr(), bytes);
}

// A line goes to standard error: what failed, and the reason that the system gave.
fn fail(rt: &HostRuntime, what: &[u8], error: Error) {
    let mut text = [0u8; 256];
    let n = shown_error(error, &mut text);
    say(rt, what);
    say(rt, b": ");
    say(rt, reason(&text[..n]));
    say(rt, b"\n");
}

// An error as the library shows it, at the start of the area, as far as there is room.
fn shown_error(error: Error, area: &mut [u8]) -> usize
    ensures counts { IsPrefixLen result area.new }
{
    let size = area.len();
    let mut rest = &mut area[..];
    let _ = write!(rest, "{error}");
    let left = rest.len();
    if left <= size {
        return size - left;
    }
    0
}

// The reason alone: behind it the library shows the system's number for it, in parentheses.
fn reason(shown: &[u8]) -> &[u8] {
    let Ok(text) = str::from_utf8(shown) else {
        return shown;
    };
    match text.split_once(" (os error ") {
        Some((words, _)) => words.as_bytes(),
        None => shown,
    }
}
