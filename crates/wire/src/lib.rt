// The wire: characters are collected, byte 13 ends a command, and the checks decide what it asks for.
// Definitions: specs/Collecting.antt, specs/Command.antt; for what a Result stands for, specs/Numbers.antt of formats.
#![tactic(auto)]

ghost use Rattle.std.specs.Prelude.{◌≡◌, true, ◌≤◌, length};
ghost use Rattle.formats.specs.Errors.{number_of};
ghost use Rattle.formats.specs.Numbers.{res_of};
ghost use Rattle.wire.specs.Collecting.{fresh_wire, read_to, wrote_to, collect, cleared, capital};
ghost use Rattle.wire.specs.Command.{has_address, in_format};
ghost use Rattle.wire.specs.Command.{special_in, data_in, read_command, write_command, command_in, command};
ghost use Rattle.wire.specs.Invariant.{WireInvariant};

use formats::Error;
use lines::Line;
use special::{Mode, Special};

mod address;

// What is collected, and where each direction stands.
#[repr(C)]
#[derive(Clone, Copy)]
pub struct Wire {
    // the first `len` of these are the characters kept, in capitals
    // Kept: an array with a length beside it, which is how the C interface holds it.
    pub chars: [u8; 32],
    pub len: usize,
    // a 33rd character came
    pub overlong: bool,
    // the address after the last one read: what I means in a read, 0 as long as none was read
    pub nextread: u8,
    // the address after the last one written: what I means in a write, 0 as long as none was written
    pub nextwrite: u8,
}

// The data of a write that passes all checks.
#[derive(Clone, Copy)]
pub enum Data {
    WriteLine(Line),
    WriteOutputs(u8),
    WriteParameter(u8),
    WriteSpecial(Special),
}

// What a command that passes all checks asks for: an address to read, or one to write and its data.
#[derive(Clone, Copy)]
pub enum Asked {
    Read(u8),
    Write(u8, Data),
}

impl Wire {
    // At power-on nothing is collected, and the last addresses are before 000.
    pub fn fresh() -> Wire
        ensures wire { result ≡ fresh_wire }
    {
        Wire {
            chars: [0; 32],
            len: 0,
            overlong: false,
            nextread: 0,
            nextwrite: 0,
        }
    }

    // The last address read is k.
    pub fn having_read(mut self, k: u8) -> Wire
        requires { k ≤ 216 }
        ensures wire { result ≡ read_to k self }
    {
        self.nextread = k + 1;
        self
    }

    // The last address written is k.
    pub fn having_written(mut self, k: u8) -> Wire
        requires { k ≤ 216 }
        ensures wire { result ≡ wrote_to k self }
    {
        self.nextwrite = k + 1;
        self
    }

    // A byte other than 13: 32 is dropped, a character is kept as a capital where there is room, and makes the command overlong where there
    // is none.
    #[tactic(auto, unfolding(crate::specs::Collecting::collect))]
    pub fn collect(mut self, x: u8) -> Wire
        requires { self.len ≤ 32 }
        ensures collected { result ≡ collect x self }
    {
        if x == 32 {
            return self;
        }
        if self.len < 32 {
            self.chars[self.len] = x.to_ascii_uppercase();
            self.len += 1;
        } else {
            self.overlong = true;
        }
        self
    }

    // The collection is empty again; the last addresses stay.
    pub fn cleared(mut self) -> Wire
        ensures empty { result ≡ cleared self }
    {
        self.len = 0;
        self.overlong = false;
        self
    }
}

// Check 7: the special command that a code names; E003 where it names none, the table's error where it is forbidden in the present state,
// E023 where the parameter is out of its reach.
#[tactic(auto, using(crate::proofs::Ways::special_ways))]
fn special_in(mode: Mode, parameter: u8, cs: &[u8]) -> Result<Data, Error>
    ensures special { res_of number_of result ≡ special_in mode parameter cs.now }
{
    let code = formats::d_in(cs)?;
    let s = special::special_of(code).ok_or(Error::NotInFormat)?;
    special::allowed(s, mode)?;
    if !special::in_reach(s, parameter) {
        return Err(Error::OutOfReach);
    }
    Ok(Data::WriteSpecial(s))
}

// The data of a write, by its address: a line, outputs, the parameter or a special command.
#[tactic(auto, using(crate::proofs::Ways::data_ways))]
fn data_in(mode: Mode, parameter: u8, k: u8, cs: &[u8]) -> Result<Data, Error>
    ensures data { res_of number_of result ≡ data_in mode parameter k cs.now }
{
    match k {
        0..=200 => Ok(Data::WriteLine(texts::line_in(cs)?)),
        201..=206 => Ok(Data::WriteOutputs(formats::h_in(cs)?)),
        209 => Ok(Data::WriteParameter(formats::d_in(cs)?)),
        _ => special_in(mode, parameter, cs),
    }
}

// A read: the address, and nothing behind it.
fn read_command(next: u8, cs: &[u8]) -> Result<Asked, Error>
    requires { (3 ≤ length cs.now) × (has_address cs.now ≡ true) }
    ensures read { res_of number_of result ≡ read_command next cs.now }
{
    let k = address::address_in(next, cs)?;
    if address::rest_at(cs) < cs.len() {
        return Err(Error::Malformed);
    }
    Ok(Asked::Read(k))
}

// A write: an address that can be written, and now; then its data.
fn write_command(mode: Mode, parameter: u8, next: u8, cs: &[u8]) -> Result<Asked, Error>
    requires { (3 ≤ length cs.now) × (has_address cs.now ≡ true) }
    ensures write { res_of number_of result ≡ write_command mode parameter next cs.now }
{
    let k = address::address_in(next, cs)?;
    if !address::is_writable(k) {
        return Err(Error::NoAddress);
    }
    if !address::is_open(mode, k) {
        return Err(Error::NotNow);
    }
    let data = data_in(mode, parameter, k, &cs[address::rest_at(cs)..])?;
    Ok(Asked::Write(k, data))
}

// Check 2: not overlong, C, then R or W, and room for an address.
fn in_format(overlong: bool, cs: &[u8]) -> bool
    requires { 3 ≤ length cs.now }
    ensures format { result ≡ in_format overlong cs.now }
{
    !overlong && cs[0] == b'C' && matches!(cs[1], b'R' | b'W') && address::has_address(cs)
}

// The characters of a command, check by check.
#[tactic(auto, using(crate::proofs::Ways::command_ways))]
fn command_in(cs: &[u8], w: Wire, mode: Mode, parameter: u8) -> Result<Asked, Error>
    ensures command { res_of number_of result ≡ command_in cs.now w mode parameter }
{
    if cs.len() < 3 {
        return Err(Error::TooShort);
    }
    if !in_format(w.overlong, cs) {
        return Err(Error::Malformed);
    }
    if cs[1] == b'R' {
        read_command(w.nextread, cs)
    } else {
        write_command(mode, parameter, w.nextwrite, cs)
    }
}

// What the collected characters ask for.
#[tactic(auto, unfolding(crate::specs::Command::command, crate::specs::Collecting::sent))]
pub fn command(w: Wire, mode: Mode, parameter: u8) -> Result<Asked, Error>
    requires { WireInvariant w }
    ensures command { res_of number_of result ≡ command w mode parameter }
{
    command_in(&w.chars[..w.len], w, mode, parameter)
}
