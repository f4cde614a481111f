// A number of some bits with its least and its largest legal value.
#![tactic(auto)]

ghost use Rattle.std.specs.Prelude.{◌≡◌, ◌+◌, ◌≤◌, length};
ghost use Rattle.bits.specs.Datagrams.{bits_in};
ghost use Rattle.codec.specs.Refusals.{fault_no, answer_of, check_no};
ghost use Rattle.codec.specs.Writes.{Placed, Room, Writes};
ghost use Rattle.number.specs.Numbers.{number_of};

use bits::{BitPlace, Datagram};
use codec::{Fault, FieldFault, Reading};

// What the layout says of a number: its bits, and its least and largest legal value. It is said once
// and serves reading, writing, the check and the end.
#[derive(Clone, Copy)]
pub struct Range {
    pub width: usize,
    pub least: u32,
    pub most: u32,
}

pub fn read_number(s: Datagram, at: BitPlace, f: Range, fault: Fault) -> Reading<u32>
    requires { f.width ≤ 24 }
    ensures { answer_of result ≡ (number_of f (fault_no fault)).read (bits_in s.entry) at.0 }
{
    let k = at.0;
    let w = f.width;
    let end = s.end();
    if end.0 < w || end.0 - w < k {
        return Err(FieldFault {
            fault: Fault::Short,
            place: at,
        });
    }
    let v = bits::read_bits(s.octets, at, w);
    if v < f.least || f.most < v {
        return Err(FieldFault { fault, place: at });
    }
    Ok((v, BitPlace(k + w)))
}

pub fn write_number(out: &mut [u8], at: BitPlace, f: Range, v: u32) -> BitPlace
    requires { Room out.old at.0 f.width × (f.width ≤ 24) }
    ensures { Writes (number_of f 3) v out.old out.new at.0 result.0 }
{
    let w = f.width;
    bits::write_bits(out, at, w, v);
    BitPlace(at.0 + w)
}

pub fn check_number(f: Range, fault: Fault, x: u32) -> Result<(), Fault>
    ensures { check_no result ≡ (number_of f (fault_no fault)).check x }
{
    if x < f.least || f.most < x {
        return Err(fault);
    }
    Ok(())
}

pub fn end_number(at: BitPlace, f: Range) -> BitPlace
    requires { Placed at.0 f.width }
    ensures { result.0 ≡ at.0 + f.width }
{
    BitPlace(at.0 + f.width)
}
