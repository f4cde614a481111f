// A block's G9: the messages referred to.
ghost use Rattle.std.specs.Prelude.{◌≡◌, ◌<◌, ◌≤◌, length};
ghost use Rattle.bits.specs.Datagrams.{bits_in};
ghost use Rattle.cells.specs.Cells.{zeros, many_octets, Each};
ghost use Rattle.codec.specs.Codec.{◌&◌};
ghost use Rattle.codec.specs.Lists.{recurs};
ghost use Rattle.header.specs.Table.{reference, references, optional_references};
ghost use Rattle.into.specs.Into.{Into, IntoTelling};
ghost use Rattle.record_octets.specs.Record.{size_of_reference, reference_octets, size_of_references_list, size_of_references, references_octets, size_of_optional_references, optional_references_octets};
ghost use Rattle.record_octets.specs.Typed.{TypedReference, TypedReferences, TypedOptionalReferences};

use bits::{BitPlace, Datagram};
use cells::{store_mark, store_word};
use codec::{Reading, Step};
use flag::{read_flag, read_recurs};
use read_front::address::read_address;
use read_group::dtg::read_stamp;
use record_octets::{in_optional_references, in_reference, in_references};

pub fn read_reference(s: Datagram, at: BitPlace, x: &mut [u8]) -> Step
    requires { (x.old ≡ zeros size_of_reference) × (length x.old ≡ size_of_reference) }
    ensures { Into reference reference_octets TypedReference (bits_in s.entry) at.0 result x.new }
{
    let at = read_address(s, at, &mut x[in_reference::ADDRESS..in_reference::STAMP])?;
    read_stamp(s, at, &mut x[in_reference::STAMP..in_reference::END])
}

// An entry behind its recurrence bit, with room for `left` others behind it; whether there is another.
fn read_entry(s: Datagram, at: BitPlace, left: usize, x: &mut [u8]) -> Reading<bool>
    requires { (x.old ≡ zeros size_of_reference) × (length x.old ≡ size_of_reference) }
    ensures { IntoTelling (recurs left & reference) (λ v. v.0) (λ v. reference_octets v.1) (λ v. TypedReference v.1) (bits_in s.entry) at.0 result x.new }
{
    let (more, at) = read_recurs(s, at, left)?;
    let end = read_reference(s, at, x)?;
    Ok((more, end))
}

// The entries of a list of 1 to 4; how many there are.
fn read_entries(s: Datagram, at: BitPlace, list: &mut [u8]) -> Reading<u32>
    requires { list.old ≡ zeros size_of_references_list }
    ensures { IntoTelling references (λ v. v.count) (λ v. many_octets reference_octets v.list) (λ v. (v.count < 4294967296) × (length v.list ≡ 4) × Each TypedReference v.list) (bits_in s.entry) at.0 result list.new }
{
    let mut n: usize = 0;
    let mut place = at;
    loop {
        let to = n * in_references::ENTRY;
        let (more, next) = read_entry(s, place, 3 - n, &mut list[to..to + in_references::ENTRY])?;
        n += 1;
        place = next;
        if !more {
            return Ok((n as u32, place));
        }
    }
}

// 1 to 4 references.
pub fn read_references(s: Datagram, at: BitPlace, x: &mut [u8]) -> Step
    requires { (x.old ≡ zeros size_of_references) × (length x.old ≡ size_of_references) }
    ensures { Into references references_octets TypedReferences (bits_in s.entry) at.0 result x.new }
{
    let (count, at) = read_entries(s, at, &mut x[in_references::LIST..in_references::COUNT])?;
    store_word(&mut x[in_references::COUNT..in_references::END], count);
    Ok(at)
}

// G9.
pub fn read_optional_references(s: Datagram, at: BitPlace, x: &mut [u8]) -> Step
    requires { (x.old ≡ zeros size_of_optional_references) × (length x.old ≡ size_of_optional_references) }
    ensures { Into optional_references optional_references_octets TypedOptionalReferences (bits_in s.entry) at.0 result x.new }
{
    let (present, at) = read_flag(s, at)?;
    if present {
        store_mark(
            &mut x[in_optional_references::PRESENT..in_optional_references::REFERENCES],
            present,
        );
        return read_references(
            s,
            at,
            &mut x[in_optional_references::REFERENCES..in_optional_references::END],
        );
    }
    Ok(at)
}
