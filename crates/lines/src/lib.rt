// A line of the program: what its eight bytes say, how it is written back, and the search for a Next among 200 of them.
// 01, 'Variables': "A line is 8 bytes."
#![tactic(auto)]

ghost use Rattle.std.specs.Prelude.{◌≡◌, ◌&&◌, ◌+◌, ◌*◌, ◌≤◌, ◌<◌, length, eqb, leb, IfSome};
ghost use Rattle.std.specs.Option.{unwrap_or};
ghost use Rattle.std.specs.Prelude.{if◌then◌else◌};
ghost use Rattle.lines.specs.declared.Line.TheVariants.{State, For, Next, Bad};
ghost use Rattle.lines.specs.Line.{end_mark, is_counter, is_end, is_bad, for_counter, for_counter_in, counter_of, counter_in, read_line, bytes_of};
ghost use Rattle.lines.specs.Program.{IsProgram, line_at, put_line, is_next_of, next_after};
ghost use Rattle.lines.specs.Loops.{end_line};

#[derive(Clone, Copy, Debug, PartialEq, Eq)]
pub enum Line {
    State { outputs: u32, time: u16 },
    For { counter: u8, count: u16 },
    Next { counter: u8 },
    // eight bytes that are none of these
    Bad,
}

// The bytes of a program.
pub const PROGRAM: usize = 1600;

// ---- eight bytes read as a line

// A loop counter is 1 to 4.
fn is_counter(c: u8) -> bool
    ensures test { result ≡ is_counter c }
{
    1 <= c && c <= 4
}

// The line of eight bytes that begin with 53, by the byte after it and the numbers in the other six.
fn state_line(second: u8, outputs: u32, time: u16) -> Line
    ensures line { result ≡ (if eqb second 0 && leb time 9999 then State outputs time else Bad) }
{
    if second == 0 && time <= 9999 {
        Line::State { outputs, time }
    } else {
        Line::Bad
    }
}

// The line of eight bytes that begin with 46, by the counter, the count and the number in the last four bytes.
fn for_line(counter: u8, count: u16, rest: u32) -> Line
    ensures line { result ≡ (if is_counter counter && leb count 9999 && eqb rest 0 then For counter count else Bad) }
{
    if is_counter(counter) && count <= 9999 && rest == 0 {
        Line::For { counter, count }
    } else {
        Line::Bad
    }
}

// The line of eight bytes that begin with 4E, by the counter and the numbers in the two bytes and the four after it.
fn next_line(counter: u8, high: u16, low: u32) -> Line
    ensures line { result ≡ (if is_counter counter && eqb (high * 4294967296 + low) 0 then Next counter else Bad) }
{
    if is_counter(counter) && high == 0 && low == 0 {
        Line::Next { counter }
    } else {
        Line::Bad
    }
}

// The line that the first eight bytes say; Bad where they say none.
pub fn read_line(b: &[u8]) -> Line
    requires { 8 ≤ length b.now }
    ensures line { result ≡ read_line b.now }
{
    let second = b[1];
    match b[0] {
        0x53 => state_line(
            second,
            formats::number_of_four(b[2], b[3], b[4], b[5]),
            formats::number_of_two(b[6], b[7]),
        ),
        0x46 => for_line(
            second,
            formats::number_of_two(b[2], b[3]),
            formats::number_of_four(b[4], b[5], b[6], b[7]),
        ),
        0x4E => next_line(
            second,
            formats::number_of_two(b[2], b[3]),
            formats::number_of_four(b[4], b[5], b[6], b[7]),
        ),
        _ => Line::Bad,
    }
}

// Line k of a program.
pub fn line_at(p: &[u8], k: usize) -> Line
    requires { (k < 200) × (8 * k + 8 ≤ length p.now) }
    ensures line { result ≡ line_at p.now k }
{
    read_line(&p[8 * k..])
}

// Whether a line is Bad.
pub fn is_bad(l: Line) -> bool
    ensures test { result ≡ is_bad l }
{
    l == Line::Bad
}

// Whether a line is a State with time 0.
fn is_end(l: Line) -> bool
    ensures test { result ≡ is_end l }
{
    matches!(l, Line::State { time: 0, .. })
}

// The counter of a For.
pub fn for_counter(l: Line) -> Option<u8>
    ensures counter { result ≡ for_counter_in l }
    ensures number { unwrap_or result 0 ≡ for_counter l }
{
    match l {
        Line::For { counter, .. } => Some(counter),
        _ => None,
    }
}

// The counter of a For or a Next.
pub fn counter_of(l: Line) -> Option<u8>
    ensures counter { result ≡ counter_in l }
    ensures number { unwrap_or result 0 ≡ counter_of l }
{
    match l {
        Line::For { counter, .. } => Some(counter),
        Line::Next { counter } => Some(counter),
        _ => None,
    }
}

// ---- a line written as eight bytes

// The end mark with outputs 0.
pub fn end_mark() -> Line
    ensures line { result ≡ end_mark }
{
    Line::State {
        outputs: 0,
        time: 0,
    }
}

// The eight bytes of a line; of a Bad one, which nobody writes, eight that are Bad.
pub fn bytes_of(l: Line) -> [u8; 8]
    ensures bytes { result ≡ bytes_of l }
{
    match l {
        Line::State { outputs, time } => {
            let o = formats::four_bytes(outputs);
            let t = formats::two_bytes(time);
            [0x53, 0, o[0], o[1], o[2], o[3], t[0], t[1]]
        }
        Line::For { counter, count } => {
            let n = formats::two_bytes(count);
            [0x46, counter, n[0], n[1], 0, 0, 0, 0]
        }
        Line::Next { counter } => [0x4E, counter, 0, 0, 0, 0, 0, 0],
        Line::Bad => [0; 8],
    }
}

// The eight bytes of a line, in their place.
fn write_line(to: &mut [u8], l: Line)
    requires { length to.old ≡ 8 }
    ensures bytes { to.new ≡ bytes_of l }
{
    to.copy_from_slice(&bytes_of(l));
}

// Line k of a program is written; every other byte stays.
pub fn put_line(p: &mut [u8], k: usize, l: Line)
    requires { (k < 200) × (8 * k + 8 ≤ length p.old) }
    ensures program { p.new ≡ put_line k l p.old }
{
    write_line(&mut p[8 * k..8 * k + 8], l);
}

// ---- all lines

// A Next of counter c.
fn is_next_of(c: u8, l: Line) -> bool
    ensures test { result ≡ is_next_of c l }
{
    let Line::Next { counter } = l else {
        return false;
    };
    c == counter
}

// Line i is a Next of counter c. Its first two bytes are asked first, of which the counter decides for nearly every line of a search.
fn is_next_at(p: &[u8], c: u8, i: usize) -> bool
    requires { IsProgram p.now × (i < 200) }
    ensures test { result ≡ is_next_of c (line_at p.now i) }
{
    p[8 * i + 1] == c && p[8 * i] == b'N' && is_next_of(c, line_at(p, i))
}

// The first Next of counter c on a line later than k.
pub fn next_after(p: &[u8], c: u8, k: u8) -> Option<u8>
    requires { IsProgram p.now × (k < 200) }
    ensures line { unwrap_or result 200 ≡ next_after p.now c k }
    ensures within { IfSome result (λ n. n < 200) }
{
    for i in k + 1..200 {
        if is_next_at(p, c, i as usize) {
            return Some(i);
        }
    }
    None
}

// The first line that is a State with time 0.
pub fn end_line(p: &[u8]) -> Option<u8>
    requires { IsProgram p.now }
    ensures line { unwrap_or result 200 ≡ end_line p.now }
    ensures within { IfSome result (λ n. n < 200) }
{
    for i in 0..200 {
        if is_end(line_at(p, i as usize)) {
            return Some(i);
        }
    }
    None
}

// The 200 lines are copied, byte by byte, whatever they are.
pub fn copy_program(from: &[u8], to: &mut [u8])
    requires { IsProgram from.now × IsProgram to.old }
    ensures program { to.new ≡ from.now }
{
    formats::copy(from, to, PROGRAM);
}
