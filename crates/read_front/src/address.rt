// Addresses, and lists of them.
ghost use Rattle.std.specs.Prelude.{◌≡◌, ◌<◌, ◌≤◌, length};
ghost use Rattle.bits.specs.Datagrams.{bits_in};
ghost use Rattle.cells.specs.Cells.{zeros, many_octets, Each};
ghost use Rattle.codec.specs.Codec.{◌&◌};
ghost use Rattle.codec.specs.Lists.{recurs};
ghost use Rattle.header.specs.Table.{unit_name, address, addresses};
ghost use Rattle.into.specs.Into.{Into, IntoTelling};
ghost use Rattle.record_octets.specs.Record.{size_of_optional_text, optional_text_octets, size_of_address, address_octets, size_of_addresses_list, size_of_addresses, addresses_octets};
ghost use Rattle.record_octets.specs.Typed.{TypedOptionalText, TypedAddress, TypedAddresses};

use bits::{BitPlace, Datagram};
use cells::{store_mark, store_word};
use codec::{Fault, Reading, Step};
use flag::{read_must, read_recurs};
use header::layout::URN;
use read_leaves::numbers::store_optional;
use read_leaves::texts::read_text;
use record_octets::{in_address, in_addresses, in_optional_text};

// The unit name of an address. Its presence bit has to be `due`: an address has one form, not both or neither.
pub fn read_unit_name(s: Datagram, at: BitPlace, due: bool, x: &mut [u8]) -> Step
    requires { (x.old ≡ zeros size_of_optional_text) × (length x.old ≡ size_of_optional_text) }
    ensures { Into (unit_name due) optional_text_octets TypedOptionalText (bits_in s.entry) at.0 result x.new }
{
    let (present, at) = read_must(s, at, due, Fault::Forms)?;
    if present {
        store_mark(
            &mut x[in_optional_text::PRESENT..in_optional_text::TEXT],
            present,
        );
        return read_text(
            s,
            at,
            64,
            &mut x[in_optional_text::TEXT..in_optional_text::END],
        );
    }
    Ok(at)
}

pub fn read_address(s: Datagram, at: BitPlace, x: &mut [u8]) -> Step
    requires { (x.old ≡ zeros size_of_address) × (length x.old ≡ size_of_address) }
    ensures { Into address address_octets TypedAddress (bits_in s.entry) at.0 result x.new }
{
    let (urn, at) = optional::read_optional(s, at, URN)?;
    store_optional(&mut x[in_address::URN..in_address::NAME], urn);
    read_unit_name(
        s,
        at,
        !urn.present,
        &mut x[in_address::NAME..in_address::END],
    )
}

// An entry behind its recurrence bit, with room for `left` others behind it; whether there is another.
fn read_entry(s: Datagram, at: BitPlace, left: usize, x: &mut [u8]) -> Reading<bool>
    requires { (x.old ≡ zeros size_of_address) × (length x.old ≡ size_of_address) }
    ensures { IntoTelling (recurs left & address) (λ v. v.0) (λ v. address_octets v.1) (λ v. TypedAddress v.1) (bits_in s.entry) at.0 result x.new }
{
    let (more, at) = read_recurs(s, at, left)?;
    let end = read_address(s, at, x)?;
    Ok((more, end))
}

// The entries of a list of 1 to left + 1; how many there are.
fn read_entries(s: Datagram, at: BitPlace, left: usize, list: &mut [u8]) -> Reading<u32>
    requires { (list.old ≡ zeros size_of_addresses_list) × (left < 16) }
    ensures { IntoTelling (addresses left) (λ v. v.count) (λ v. many_octets address_octets v.list) (λ v. (v.count < 4294967296) × (length v.list ≡ 16) × Each TypedAddress v.list) (bits_in s.entry) at.0 result list.new }
{
    let mut n: usize = 0;
    let mut place = at;
    loop {
        let to = n * in_addresses::ENTRY;
        let (more, next) = read_entry(s, place, left - n, &mut list[to..to + in_addresses::ENTRY])?;
        n += 1;
        place = next;
        if !more {
            return Ok((n as u32, place));
        }
    }
}

// A list of 1 to left + 1 addresses.
pub fn read_addresses(s: Datagram, at: BitPlace, left: usize, x: &mut [u8]) -> Step
    requires { (x.old ≡ zeros size_of_addresses) × (length x.old ≡ size_of_addresses) × (left < 16) }
    ensures { Into (addresses left) addresses_octets TypedAddresses (bits_in s.entry) at.0 result x.new }
{
    let (count, at) = read_entries(s, at, left, &mut x[in_addresses::LIST..in_addresses::COUNT])?;
    store_word(&mut x[in_addresses::COUNT..in_addresses::END], count);
    Ok(at)
}
