// A message block, and the list of them.
ghost use Rattle.codec.specs.Writes.{Room, Writes};
ghost use Rattle.std.specs.Prelude.{◌≡◌, ◌+◌, length};
ghost use Rattle.codec.specs.Codec.{flag, ◌&◌, ◌closed_by◌};
ghost use Rattle.header.specs.Table.{format, handling, times, optional_response, optional_references, block, blocks};
ghost use Rattle.record_octets.specs.Record.{size_of_block, block_in, size_of_blocks, blocks_in, blocks_of, size_of_blocks_list};

use bits::BitPlace;
use cells::{entry, load_word};
use flag::write_flag;
use header::{References, Response};
use record_octets::{in_block, in_blocks, in_optional_references, in_optional_response};
use write_group::format::write_format;
use write_group::handling::write_handling;
use write_group::part::write_optional_part;
use write_group::times::write_times;

// A block up to the end of G7.
fn write_message(out: &mut [u8], at: BitPlace, version: u32, x: &[u8]) -> BitPlace
    requires { Room out.old at.0 ((format version & handling & times).size ((block_in x.now).format, ((block_in x.now).handling, (block_in x.now).times))) × (length x.now ≡ size_of_block) }
    ensures { Writes (format version & handling & times) ((block_in x.now).format, ((block_in x.now).handling, (block_in x.now).times)) out.old out.new at.0 result.0 }
{
    let at = write_format(out, at, version, &x[in_block::FORMAT..in_block::HANDLING]);
    let at = write_handling(out, at, &x[in_block::HANDLING..in_block::TIMES]);
    write_times(out, at, &x[in_block::TIMES..in_block::RESPONSE])
}

// G8 and G9 and the presence bit of G10, which is 0; G9 is legal.
fn write_tail(out: &mut [u8], at: BitPlace, x: &[u8]) -> BitPlace
    requires { Room out.old at.0 ((optional_response & (optional_references closed_by 7)).size ((block_in x.now).response, (block_in x.now).references)) × (optional_references.check (block_in x.now).references ≡ 0) × (length x.now ≡ size_of_block) }
    ensures { Writes (optional_response & (optional_references closed_by 7)) ((block_in x.now).response, (block_in x.now).references) out.old out.new at.0 result.0 }
{
    let at = write_optional_part::<Response>(
        out,
        at,
        in_optional_response::RESPONSE,
        &x[in_block::RESPONSE..in_block::REFERENCES],
    );
    let at = write_optional_part::<References>(
        out,
        at,
        in_optional_references::REFERENCES,
        &x[in_block::REFERENCES..in_block::END],
    );
    write_flag(out, at, false)
}

// A legal block of a record of that version.
pub fn write_block(out: &mut [u8], at: BitPlace, version: u32, x: &[u8]) -> BitPlace
    requires { Room out.old at.0 ((block version).size (block_in x.now)) × ((block version).check (block_in x.now) ≡ 0) × (length x.now ≡ size_of_block) }
    ensures { Writes (block version) (block_in x.now) out.old out.new at.0 result.0 }
{
    let at = write_message(out, at, version, x);
    write_tail(out, at, x)
}

// A recurrence bit and the block behind it, legal.
fn write_entry(out: &mut [u8], at: BitPlace, version: u32, more: bool, x: &[u8]) -> BitPlace
    requires { Room out.old at.0 (1 + (block version).size (block_in x.now)) × ((block version).check (block_in x.now) ≡ 0) × (length x.now ≡ size_of_block) }
    ensures { Writes (flag & block version) (more, (block_in x.now)) out.old out.new at.0 result.0 }
{
    let at = write_flag(out, at, more);
    write_block(out, at, version, x)
}

// The entries of a legal list: every one but the last has the recurrence bit 1.
// Not by part::write_entries: how a block is laid out hangs on the record's version, which is known only as it runs.
fn write_entries(out: &mut [u8], at: BitPlace, version: u32, list: &[u8], held: u32) -> BitPlace
    requires { Room out.old at.0 ((blocks version).size (blocks_of list.now held)) × ((blocks version).check (blocks_of list.now held) ≡ 0) × (length list.now ≡ size_of_blocks_list) }
    ensures { Writes (blocks version) (blocks_of list.now held) out.old out.new at.0 result.0 }
{
    let last = held as usize - 1;
    let mut place = at;
    for n in 0..last {
        place = write_entry(out, place, version, true, entry(list, n, in_blocks::ENTRY));
    }
    write_entry(
        out,
        place,
        version,
        false,
        entry(list, last, in_blocks::ENTRY),
    )
}

// The legal blocks of a record of that version.
pub fn write_blocks(out: &mut [u8], at: BitPlace, version: u32, x: &[u8]) -> BitPlace
    requires { Room out.old at.0 ((blocks version).size (blocks_in x.now)) × ((blocks version).check (blocks_in x.now) ≡ 0) × (length x.now ≡ size_of_blocks) }
    ensures { Writes (blocks version) (blocks_in x.now) out.old out.new at.0 result.0 }
{
    let count = load_word(&x[in_blocks::COUNT..in_blocks::END]);
    write_entries(
        out,
        at,
        version,
        &x[in_blocks::LIST..in_blocks::COUNT],
        count,
    )
}
