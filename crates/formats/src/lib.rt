// The formats in which numbers and texts stand in an area and on the wire: numbers in bytes, characters as digits, numbers read from
// characters, and text that is written into an area.
// Definitions: specs/Digits.antt for what a number's digits are, specs/Bytes.antt for bytes in a row, specs/Numbers.antt for what the types
// below stand for, specs/Writing.antt for what writing into an area leaves there.
#![tactic(auto)]

ghost use Rattle.std.specs.Prelude.{◌≡◌, [], ◌∷◌, ◌++◌, ℕ, ◌+◌, ◌*◌, ◌≤◌, ◌<◌, min, length, take, drop, IfSome};
ghost use Rattle.std.specs.Option.{unwrap_or};
ghost use Rattle.formats.specs.Errors.{number_of as number_of_error, distinct as distinct_errors};
ghost use Rattle.formats.specs.Digits.{number, digit_value, digit_char, shown, number_in, h_in, d_in, width, most_digits, decimal, decimal_in, error_text};
ghost use Rattle.formats.specs.Bytes.{bytes};
ghost use Rattle.formats.specs.Numbers.{res_of, res_or, most_written};
ghost use Rattle.formats.specs.Writing.{Wrote};
ghost use Rattle.formats.specs.TextWritten.{Writes};

// ---- errors and refusals

// An error or a refusal is told by its number, and no other of its kind has that one.
pub trait Numbered {
    ghost number_of: { Self → ℕ };

    fn number(self) -> u8
        ensures { result ≡ number_of self };

    ghost distinct: { (a b : Self) → number_of a ≡ number_of b → a ≡ b };
}

// The errors of the wire. "Errors are E and three digits."
#[derive(Clone, Copy, Debug, PartialEq, Eq)]
pub enum Error {
    // fewer than three characters
    TooShort = 1,
    // no command by its first letters or its length: characters are left over or missing
    Malformed = 2,
    // data that are not in their format
    NotInFormat = 3,
    // no address, or one that cannot be written
    NoAddress = 4,
    // not to be written while a program runs or is paused
    NotNow = 5,
    // a special command that a running or paused program forbids
    NotStopped = 20,
    // to continue, where nothing is paused
    NotPaused = 21,
    // to pause, where no program runs
    NotRunning = 22,
    // a parameter that a special command does not reach
    OutOfReach = 23,
    // a Bad line, which cannot be read
    BadLine = 24,
}

// A number stands for itself.
impl Numbered for u8 {
    ghost number_of = { λ n. n };

    fn number(self) -> u8 {
        self
    }

    ghost distinct = { λ _ _ same. same };
}

impl Numbered for Error {
    ghost number_of = { number_of_error };

    fn number(self) -> u8 {
        self as u8
    }

    ghost distinct = { distinct_errors };
}

// ---- bytes

// Two bytes as a number, high byte first.
pub fn number_of_two(a: u8, b: u8) -> u16
    ensures number { result ≡ number 256 (a ∷ b ∷ []) }
{
    u16::from_be_bytes([a, b])
}

// Four bytes as a number, high byte first.
pub fn number_of_four(a: u8, b: u8, c: u8, d: u8) -> u32
    ensures number { result ≡ number 256 (a ∷ b ∷ c ∷ d ∷ []) }
{
    u32::from_be_bytes([a, b, c, d])
}

// A number in two bytes, high byte first.
pub fn two_bytes(v: u16) -> [u8; 2]
    ensures bytes { result ≡ bytes 2 v }
{
    v.to_be_bytes()
}

// A number in four bytes, high byte first.
pub fn four_bytes(v: u32) -> [u8; 4]
    ensures bytes { result ≡ bytes 4 v }
{
    v.to_be_bytes()
}

// The first n bytes of `to` become those of `from`, and the rest of `to` stays.
// Kept: byte by byte, and not by copy_from_slice, which is a call of memmove: the C interface asks no more of a C library than memcpy and memset.
pub fn copy(from: &[u8], to: &mut [u8], n: usize)
    requires { (n ≤ length from.now) × (n ≤ length to.old) }
    ensures copied { to.new ≡ take n from.now ++ drop n to.old }
{
    for i in 0..n {
        to[i] = from[i];
    }
}

// ---- characters

// The value of a digit's character; no other character has one.
pub fn digit_value(c: u8) -> Option<u8>
    ensures value { unwrap_or result 16 ≡ digit_value c }
    ensures digit { IfSome result (λ v. v < 16) }
{
    match c {
        b'0'..=b'9' => Some(c - b'0'),
        b'A'..=b'F' => Some(c - b'A' + 10),
        _ => None,
    }
}

// The character of a digit.
pub fn digit_char(v: u8) -> u8
    requires { v < 16 }
    ensures character { result ≡ digit_char v }
{
    if v < 10 { b'0' + v } else { b'A' + (v - 10) }
}

// The number that the characters are to a base, at most eight of them.
pub fn number_in(cs: &[u8], base: u32) -> Option<u32>
    requires { (length cs.now ≤ 8) × (2 ≤ base) × (base ≤ 16) }
    ensures number { (e : ℕ) → res_or e result ≡ number_in base e cs.now }
{
    let mut v: u32 = 0;
    for c in cs {
        let d = digit_value(*c)? as u32;
        if base <= d {
            return None;
        }
        v = v * base + d;
    }
    Some(v)
}

// The format h: two hex digits. E002 for another number of characters, E003 for others than digits.
pub fn h_in(cs: &[u8]) -> Result<u8, Error>
    ensures h { res_of number_of_error result ≡ h_in cs.now }
{
    if cs.len() != 2 {
        return Err(Error::Malformed);
    }
    let v = number_in(cs, 16).ok_or(Error::NotInFormat)?;
    Ok((v % 256) as u8)
}

// The format d: three decimal digits to 255. E002 for another number of characters, E003 for others than digits and above 255.
pub fn d_in(cs: &[u8]) -> Result<u8, Error>
    ensures d { res_of number_of_error result ≡ d_in cs.now }
{
    if cs.len() != 3 {
        return Err(Error::Malformed);
    }
    let v = number_in(cs, 10).ok_or(Error::NotInFormat)?;
    if 255 < v {
        return Err(Error::NotInFormat);
    }
    Ok(v as u8)
}

// A number as a person writes it, in decimal digits, one or more and as many as there are.
pub fn decimal_in(cs: &[u8]) -> Option<u64>
    ensures number { (e : ℕ) → res_or e result ≡ decimal_in most_written e cs.now }
{
    if cs.is_empty() {
        return None;
    }
    let mut worth: u64 = 0;
    for c in cs {
        let d = digit_value(*c)? as u64;
        if 10 <= d {
            return None;
        }
        // the largest stands for every larger number
        worth = worth.saturating_mul(10).saturating_add(d);
    }
    Some(worth)
}

// How many decimal digits a number has.
fn width(v: u64) -> usize
    ensures digits { (result ≡ width most_digits v) × (result ≤ most_digits) }
{
    let mut n: usize = 1;
    let mut rest = v;
    // Kept: the digits are counted as they are taken off, which no range does more plainly.
    while 10 <= rest {
        rest /= 10;
        n += 1;
    }
    n
}

// ---- text in an area

// Text that is written into a lent area: the place where the next piece stands. What is written leaves every other byte.
#[derive(Drop)]
pub struct Text<'a> {
    pub area: &'a mut [u8],
    pub at: usize,
}

impl<'a> Text<'a> {
    // Text that begins at the start of an area.
    pub fn new(area: &'a mut [u8]) -> Text<'a>
        ensures same_reference { result.area.ghost_name ≡ area.entry.ghost_name }
        ensures start { (result.area.now ≡ area.old) × (result.at ≡ 0) }
    {
        Text { area, at: 0 }
    }

    // What stands in the area so far.
    pub fn written(&self) -> &[u8]
        requires { self.now.at ≤ length self.now.area.now }
        ensures written { result.now ≡ take self.now.at self.now.area.now }
    {
        &self.area[..self.at]
    }

    // A character.
    pub fn char(&mut self, c: u8)
        requires { self.old.at < length self.old.area.now }
        ensures same_reference { self.new.area.ghost_name ≡ self.old.area.ghost_name }
        ensures wrote { Writes (c ∷ []) self.old self.new }
        ensures near { self.new.at ≡ self.old.at + 1 }
    {
        self.area[self.at] = c;
        self.at += 1;
    }

    // A number in n digits to a base, from the last to the first.
    pub fn digits(&mut self, base: u64, n: usize, v: u64)
        requires { (self.old.at + n ≤ length self.old.area.now) × (1 < base) × (base ≤ 16) }
        ensures same_reference { self.new.area.ghost_name ≡ self.old.area.ghost_name }
        ensures wrote { Writes (shown base n v) self.old self.new }
        ensures near { self.new.at ≡ self.old.at + n }
    {
        let mut rest = v;
        for i in (0..n).rev() {
            self.area[self.at + i] = digit_char((rest % base) as u8);
            rest /= base;
        }
        self.at += n;
    }

    // A number in decimal, without leading zeros.
    pub fn decimal(&mut self, v: u64)
        requires { self.old.at + length (decimal v) ≤ length self.old.area.now }
        ensures same_reference { self.new.area.ghost_name ≡ self.old.area.ghost_name }
        ensures wrote { Writes (decimal v) self.old self.new }
        ensures near { self.new.at ≡ self.old.at + length (decimal v) }
    {
        let n = width(v);
        self.digits(10, n, v);
    }

    // E and the number of an error or a refusal in three digits.
    pub fn error<E: Numbered>(&mut self, e: E)
        requires { self.old.at + 4 ≤ length self.old.area.now }
        ensures same_reference { self.new.area.ghost_name ≡ self.old.area.ghost_name }
        ensures wrote { Writes (error_text (E.number_of e)) self.old self.new }
        ensures near { self.new.at ≡ self.old.at + 4 }
    {
        self.char(b'E');
        self.digits(10, 3, e.number() as u64);
    }
}
