// A message block.
ghost use Rattle.std.specs.Prelude.{◌≡◌, ◌+◌, length};
ghost use Rattle.codec.specs.Writes.{Placed};
ghost use Rattle.header.specs.Table.{block};
ghost use Rattle.record_octets.specs.Record.{size_of_block, block_in};

use crate::format::end_format;
use crate::handling::end_handling;
use crate::part::end_optional_part;
use crate::times::end_times;
use bits::BitPlace;
use flag::end_flag;
use header::{References, Response};
use record_octets::{in_block, in_optional_references, in_optional_response};

// A legal block of a record of that version, with the presence bit of G10.
pub fn end_block(at: BitPlace, version: u32, x: &[u8]) -> BitPlace
    requires { Placed at.0 ((block version).size (block_in x.now)) × ((block version).check (block_in x.now) ≡ 0) × (length x.now ≡ size_of_block) }
    ensures { result.0 ≡ at.0 + (block version).size (block_in x.now) }
{
    let at = end_format(at, version, &x[in_block::FORMAT..in_block::HANDLING]);
    let at = end_handling(at, &x[in_block::HANDLING..in_block::TIMES]);
    let at = end_times(at, &x[in_block::TIMES..in_block::RESPONSE]);
    let at = end_optional_part::<Response>(
        at,
        in_optional_response::RESPONSE,
        &x[in_block::RESPONSE..in_block::REFERENCES],
    );
    let at = end_optional_part::<References>(
        at,
        in_optional_references::REFERENCES,
        &x[in_block::REFERENCES..in_block::END],
    );
    end_flag(at)
}
