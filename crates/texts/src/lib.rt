// A line on the wire: how it is shown, and how it is read, with the error where it is not one.
// 01, 'Variables': "Wire forms: `S 00 X4 X3 X2 X1 TTTT`, `F C XXXX`, `N C`." Definitions: specs/Text.antt.
#![tactic(auto)]

ghost use Rattle.std.specs.Prelude.{◌≡◌, ◌+◌, ◌≤◌, length};
ghost use Rattle.formats.specs.Errors.{number_of};
ghost use Rattle.formats.specs.Numbers.{res_of, res_or};
ghost use Rattle.formats.specs.TextWritten.{Writes};
ghost use Rattle.texts.specs.Text.{line_text, counter_in, state_in, for_in, next_in, line_in};

use formats::{Error, Text};
use lines::Line;

// The characters of a line are written behind a text, none of a Bad one.
pub fn put_line_text(text: &mut Text, l: Line)
    requires { text.old.at + 15 ≤ length text.old.area.now }
    ensures same_reference { text.new.area.ghost_name ≡ text.old.area.ghost_name }
    ensures wrote { Writes (line_text l) text.old text.new }
    ensures near { text.new.at ≤ text.old.at + 15 }
{
    match l {
        Line::State { outputs, time } => {
            text.char(b'S');
            text.digits(10, 2, 0);
            text.digits(16, 8, outputs as u64);
            text.digits(10, 4, time as u64);
        }
        Line::For { counter, count } => {
            text.char(b'F');
            text.digits(10, 1, counter as u64);
            text.digits(10, 4, count as u64);
        }
        Line::Next { counter } => {
            text.char(b'N');
            text.digits(10, 1, counter as u64);
        }
        Line::Bad => {}
    }
}

// The loop counter that one character is, 1 to 4.
fn counter_in(cs: &[u8]) -> Option<u8>
    requires { length cs.now ≤ 8 }
    ensures counter { res_or 3 result ≡ counter_in cs.now }
{
    match formats::number_in(cs, 10)? {
        c @ 1..=4 => Some(c as u8),
        _ => None,
    }
}

// Fifteen characters as a State line, where they are in the format and the reserved digits 00.
fn state_in(cs: &[u8]) -> Option<Line>
    requires { length cs.now ≡ 15 }
    ensures line { res_or 3 result ≡ state_in cs.now }
{
    let reserved = formats::number_in(&cs[1..3], 10)?;
    if reserved != 0 {
        return None;
    }
    let outputs = formats::number_in(&cs[3..11], 16)?;
    let time = formats::number_in(&cs[11..15], 10)? as u16;
    Some(Line::State { outputs, time })
}

// Six characters as a For line.
fn for_in(cs: &[u8]) -> Option<Line>
    requires { length cs.now ≡ 6 }
    ensures line { res_or 3 result ≡ for_in cs.now }
{
    let counter = counter_in(&cs[1..2])?;
    let count = formats::number_in(&cs[2..6], 10)? as u16;
    Some(Line::For { counter, count })
}

// Two characters as a Next line.
fn next_in(cs: &[u8]) -> Option<Line>
    requires { length cs.now ≡ 2 }
    ensures line { res_or 3 result ≡ next_in cs.now }
{
    let counter = counter_in(&cs[1..2])?;
    Some(Line::Next { counter })
}

// The line that the data of a write say. No data is E002, a first letter other than S, F and N is E003, another length than the
// letter's is E002, and what is not in its format E003.
pub fn line_in(cs: &[u8]) -> Result<Line, Error>
    ensures line { res_of number_of result ≡ line_in cs.now }
{
    let letter = *cs.first().ok_or(Error::Malformed)?;
    let line = match (letter, cs.len()) {
        (b'S', 15) => state_in(cs),
        (b'F', 6) => for_in(cs),
        (b'N', 2) => next_in(cs),
        (b'S' | b'F' | b'N', _) => return Err(Error::Malformed),
        _ => None,
    };
    line.ok_or(Error::NotInFormat)
}
