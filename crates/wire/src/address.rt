// The address of a command: check 3, what stands behind it, and check 4, whether it can be written now.
// Definitions: `address_in`, `has_address`, `rest`, `is_writable`, `is_open` of wire/specs/Command.antt.
// Kept: a slice with room for an address, which five functions require of it: a struct for it would be made by one function and hold the slice alone.
ghost use Rattle.std.specs.Prelude.{◌≡◌, true, ◌≤◌, length, drop};
ghost use Rattle.formats.specs.Errors.{number_of};
ghost use Rattle.formats.specs.Numbers.{res_of};
ghost use Rattle.wire.specs.Command.{is_stepwise, has_address, rest, address_in, is_writable, is_open};

use formats::Error;
use special::Mode;

// The address is I or D.
fn is_stepwise(cs: &[u8]) -> bool
    requires { 3 ≤ length cs.now }
    ensures stepwise { result ≡ is_stepwise cs.now }
{
    matches!(cs[2], b'I' | b'D')
}

// The third character is I or D, or there are five.
pub fn has_address(cs: &[u8]) -> bool
    requires { 3 ≤ length cs.now }
    ensures address { result ≡ has_address cs.now }
{
    is_stepwise(cs) || 5 <= cs.len()
}

// Where the rest of a command begins, behind its address.
pub fn rest_at(cs: &[u8]) -> usize
    requires { (3 ≤ length cs.now) × (has_address cs.now ≡ true) }
    ensures rest { (result ≤ length cs.now) × (drop result cs.now ≡ rest cs.now) }
{
    if is_stepwise(cs) { 3 } else { 5 }
}

// Check 3, the address: three digits, I or D; E004 where it is none of 000-216.
#[tactic(auto, using(crate::proofs::Addresses::address_ways))]
pub fn address_in(next: u8, cs: &[u8]) -> Result<u8, Error>
    requires { (3 ≤ length cs.now) × (has_address cs.now ≡ true) }
    ensures address { res_of number_of result ≡ address_in next cs.now }
{
    match cs[2] {
        b'I' if next <= 216 => Ok(next),
        b'D' if 2 <= next => Ok(next - 2),
        b'I' | b'D' => Err(Error::NoAddress),
        _ => match formats::number_in(&cs[2..5], 10) {
            Some(k) if k <= 216 => Ok(k as u8),
            _ => Err(Error::NoAddress),
        },
    }
}

// Every address but 201, 202, 207, 208 and 211-216 can be written.
pub fn is_writable(k: u8) -> bool
    ensures writable { result ≡ is_writable k }
{
    matches!(k, 0..=200 | 203..=206 | 209 | 210)
}

// Check 4: while running or paused only 209 and 210 can be written.
pub fn is_open(mode: Mode, k: u8) -> bool
    ensures open { result ≡ is_open mode k }
{
    mode == Mode::Stop || matches!(k, 209 | 210)
}
