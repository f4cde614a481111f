// A presence or recurrence bit. Every bit is legal, so that only a bit that has to be 0 or 1 has a
// check.
#![tactic(auto)]

ghost use Rattle.std.specs.Prelude.{◌≡◌, ◌+◌, ◌≤◌, false, length};
ghost use Rattle.bits.specs.Datagrams.{bits_in};
ghost use Rattle.codec.specs.Codec.{flag, must};
ghost use Rattle.codec.specs.Lists.{recurs};
ghost use Rattle.codec.specs.Refusals.{fault_no, answer, answer_of, check_no};
ghost use Rattle.codec.specs.Writes.{Placed, Room, Writes};

use bits::{BitPlace, Datagram};
use codec::{Fault, FieldFault, Reading, Step};

pub fn read_flag(s: Datagram, at: BitPlace) -> Reading<bool>
    ensures { answer_of result ≡ flag.read (bits_in s.entry) at.0 }
{
    let k = at.0;
    let end = s.end();
    if end.0 <= k {
        return Err(FieldFault {
            fault: Fault::Short,
            place: at,
        });
    }
    let b = bits::read_bits(s.octets, at, 1);
    Ok((b == 1, BitPlace(k + 1)))
}

// A bit that has to be b.
pub fn read_must(s: Datagram, at: BitPlace, b: bool, fault: Fault) -> Reading<bool>
    ensures { answer_of result ≡ (must b (fault_no fault)).read (bits_in s.entry) at.0 }
{
    let (x, next) = read_flag(s, at)?;
    if x != b {
        return Err(FieldFault { fault, place: at });
    }
    Ok((x, next))
}

// A bit that has to be 0 and for which there is no cell.
pub fn read_zero(s: Datagram, at: BitPlace, fault: Fault) -> Step
    ensures { answer result false ≡ (must false (fault_no fault)).read (bits_in s.entry) at.0 }
{
    let (_, next) = read_must(s, at, false, fault)?;
    Ok(next)
}

// A recurrence bit with room for `left` entries behind its own.
pub fn read_recurs(s: Datagram, at: BitPlace, left: usize) -> Reading<bool>
    ensures { answer_of result ≡ (recurs left).read (bits_in s.entry) at.0 }
{
    if left == 0 {
        return read_must(s, at, false, Fault::Count);
    }
    read_flag(s, at)
}

pub fn write_flag(out: &mut [u8], at: BitPlace, b: bool) -> BitPlace
    requires { Room out.old at.0 1 }
    ensures { Writes flag b out.old out.new at.0 result.0 }
{
    // the bit is a constant in both calls: the compiler makes fewer instructions of that than of one call with `b as u32`
    if b {
        bits::write_bits(out, at, 1, 1);
        return end_flag(at);
    }
    bits::write_bits(out, at, 1, 0);
    end_flag(at)
}

// A bit that has to be b.
pub fn check_must(b: bool, fault: Fault, x: bool) -> Result<(), Fault>
    ensures { check_no result ≡ (must b (fault_no fault)).check x }
{
    if x != b {
        return Err(fault);
    }
    Ok(())
}

pub fn end_flag(at: BitPlace) -> BitPlace
    requires { Placed at.0 1 }
    ensures { result.0 ≡ at.0 + 1 }
{
    BitPlace(at.0 + 1)
}
