// A message block.
ghost use Rattle.std.specs.Prelude.{◌≡◌, length};
ghost use Rattle.codec.specs.Refusals.{check_no};
ghost use Rattle.header.specs.Table.{block};
ghost use Rattle.record_octets.specs.Record.{size_of_block, block_in};

use crate::format::check_format;
use crate::handling::check_handling;
use crate::part::check_optional_part;
use crate::times::check_times;
use codec::Fault;
use header::{References, Response};
use record_octets::{in_block, in_optional_references, in_optional_response};

// A message block of a record of that version; the presence bit of G10 has no cell.
pub fn check_block(version: u32, x: &[u8]) -> Result<(), Fault>
    requires { length x.now ≡ size_of_block }
    ensures { check_no result ≡ (block version).check (block_in x.now) }
{
    check_format(version, &x[in_block::FORMAT..in_block::HANDLING])?;
    check_handling(&x[in_block::HANDLING..in_block::TIMES])?;
    check_times(&x[in_block::TIMES..in_block::RESPONSE])?;
    check_optional_part::<Response>(
        in_optional_response::RESPONSE,
        &x[in_block::RESPONSE..in_block::REFERENCES],
    )?;
    check_optional_part::<References>(
        in_optional_references::REFERENCES,
        &x[in_block::REFERENCES..in_block::END],
    )
}
