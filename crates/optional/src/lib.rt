// A number behind its presence bit.
#![tactic(auto)]

ghost use Rattle.std.specs.Prelude.{◌≡◌, ◌+◌, ◌≤◌, length};
ghost use Rattle.bits.specs.Datagrams.{bits_in};
ghost use Rattle.codec.specs.Refusals.{answer_of, check_no};
ghost use Rattle.codec.specs.Writes.{Placed, Room, Writes};
ghost use Rattle.optional.specs.Optionals.{optional_number};

use bits::{BitPlace, Datagram};
use codec::{Fault, Reading};
use flag::{end_flag, read_flag, write_flag};
use number::{Range, check_number, end_number, read_number, write_number};

// A number that may be absent; its cell is unused then.
#[repr(C)]
#[derive(Clone, Copy)]
pub struct OptionalNumber {
    pub present: bool,
    pub value: u32,
}

pub fn read_optional(s: Datagram, at: BitPlace, f: Range) -> Reading<OptionalNumber>
    requires { f.width ≤ 24 }
    ensures { answer_of result ≡ (optional_number f).read (bits_in s.entry) at.0 }
{
    let (present, next) = read_flag(s, at)?;
    if present {
        let (value, end) = read_number(s, next, f, Fault::Code)?;
        return Ok((OptionalNumber { present, value }, end));
    }
    Ok((OptionalNumber { present, value: 0 }, next))
}

pub fn write_optional(out: &mut [u8], at: BitPlace, f: Range, x: OptionalNumber) -> BitPlace
    requires { Room out.old at.0 ((optional_number f).size x) × (f.width ≤ 24) }
    ensures { Writes (optional_number f) x out.old out.new at.0 result.0 }
{
    let present = x.present;
    let next = write_flag(out, at, present);
    if present {
        return write_number(out, next, f, x.value);
    }
    next
}

pub fn check_optional(f: Range, x: OptionalNumber) -> Result<(), Fault>
    ensures { check_no result ≡ (optional_number f).check x }
{
    if x.present {
        return check_number(f, Fault::Code, x.value);
    }
    Ok(())
}

pub fn end_optional(at: BitPlace, f: Range, x: OptionalNumber) -> BitPlace
    requires { Placed at.0 ((optional_number f).size x) }
    ensures { result.0 ≡ at.0 + (optional_number f).size x }
{
    let behind = end_flag(at);
    if x.present {
        return end_number(behind, f);
    }
    behind
}
