// A message block, and the list of them.
ghost use Rattle.std.specs.Prelude.{◌≡◌, ◌<◌, ◌≤◌, ◌++◌, length};
ghost use Rattle.bits.specs.Datagrams.{bits_in};
ghost use Rattle.cells.specs.Cells.{zeros, many_octets, Each};
ghost use Rattle.codec.specs.Codec.{◌&◌};
ghost use Rattle.codec.specs.Lists.{recurs};
ghost use Rattle.header.specs.Table.{format, handling, times, block, blocks};
ghost use Rattle.into.specs.Into.{Into, IntoTelling};
ghost use Rattle.record_octets.specs.Record.{format_octets, handling_octets, times_octets, size_of_block, block_octets, size_of_blocks_list, size_of_blocks, blocks_octets};
ghost use Rattle.record_octets.specs.Typed.{TypedFormat, TypedHandling, TypedTimes, TypedBlock, TypedBlocks};

use crate::references::read_optional_references;
use bits::{BitPlace, Datagram};
use cells::store_word;
use codec::{Fault, Reading, Step};
use flag::{read_recurs, read_zero};
use read_group::format::read_format;
use read_group::handling::read_handling;
use read_group::response::read_optional_response;
use read_group::times::read_times;
use record_octets::{in_block, in_blocks};

// The fields from the user message format to G7: the first 268 octets.
fn read_head(s: Datagram, at: BitPlace, version: u32, x: &mut [u8]) -> Step
    requires { (x.old ≡ zeros 268) × (length x.old ≡ 268) }
    ensures { Into (format version & handling & times) (λ v. format_octets v.0 ++ handling_octets v.1.0 ++ times_octets v.1.1) (λ v. TypedFormat v.0 × TypedHandling v.1.0 × TypedTimes v.1.1) (bits_in s.entry) at.0 result x.new }
{
    let at = read_format(s, at, version, &mut x[in_block::FORMAT..in_block::HANDLING])?;
    let at = read_handling(s, at, &mut x[in_block::HANDLING..in_block::TIMES])?;
    read_times(s, at, &mut x[in_block::TIMES..in_block::RESPONSE])
}

// A message block of a header of that version, behind its recurrence bit. The presence bit of G10 has to be 0 and has
// no cell.
pub fn read_block(s: Datagram, at: BitPlace, version: u32, x: &mut [u8]) -> Step
    requires { (x.old ≡ zeros size_of_block) × (length x.old ≡ size_of_block) }
    ensures { Into (block version) block_octets TypedBlock (bits_in s.entry) at.0 result x.new }
{
    let at = read_head(s, at, version, &mut x[in_block::FORMAT..in_block::RESPONSE])?;
    let at = read_optional_response(s, at, &mut x[in_block::RESPONSE..in_block::REFERENCES])?;
    let at = read_optional_references(s, at, &mut x[in_block::REFERENCES..in_block::END])?;
    read_zero(s, at, Fault::Security)
}

// An entry behind its recurrence bit, with room for `left` others behind it; whether there is another.
fn read_entry(s: Datagram, at: BitPlace, version: u32, left: usize, x: &mut [u8]) -> Reading<bool>
    requires { (x.old ≡ zeros size_of_block) × (length x.old ≡ size_of_block) }
    ensures { IntoTelling (recurs left & block version) (λ v. v.0) (λ v. block_octets v.1) (λ v. TypedBlock v.1) (bits_in s.entry) at.0 result x.new }
{
    let (more, at) = read_recurs(s, at, left)?;
    let end = read_block(s, at, version, x)?;
    Ok((more, end))
}

// The entries of a list of 1 to 16; how many there are.
fn read_entries(s: Datagram, at: BitPlace, version: u32, list: &mut [u8]) -> Reading<u32>
    requires { list.old ≡ zeros size_of_blocks_list }
    ensures { IntoTelling (blocks version) (λ v. v.count) (λ v. many_octets block_octets v.list) (λ v. (v.count < 4294967296) × (length v.list ≡ 16) × Each TypedBlock v.list) (bits_in s.entry) at.0 result list.new }
{
    let mut n: usize = 0;
    let mut place = at;
    loop {
        let to = n * in_blocks::ENTRY;
        let (more, next) = read_entry(
            s,
            place,
            version,
            15 - n,
            &mut list[to..to + in_blocks::ENTRY],
        )?;
        n += 1;
        place = next;
        if !more {
            return Ok((n as u32, place));
        }
    }
}

// 1 to 16 blocks of a header of that version.
pub fn read_blocks(s: Datagram, at: BitPlace, version: u32, x: &mut [u8]) -> Step
    requires { (x.old ≡ zeros size_of_blocks) × (length x.old ≡ size_of_blocks) }
    ensures { Into (blocks version) blocks_octets TypedBlocks (bits_in s.entry) at.0 result x.new }
{
    let (count, at) = read_entries(s, at, version, &mut x[in_blocks::LIST..in_blocks::COUNT])?;
    store_word(&mut x[in_blocks::COUNT..in_blocks::END], count);
    Ok(at)
}
