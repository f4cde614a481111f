// A block's message size, codes and control marking.
ghost use Rattle.std.specs.Prelude.{◌≡◌, ◌+◌, length};
ghost use Rattle.codec.specs.Writes.{Placed};
ghost use Rattle.header.specs.Table.{handling};
ghost use Rattle.record_octets.specs.Record.{size_of_handling, handling_in};

use crate::texts::end_optional_text;
use bits::BitPlace;
use header::layout::{CLASSIFICATION, MARKING, MESSAGE_SIZE, OPERATION, PRECEDENCE, RETRANSMIT};
use leaves::numbers::end_optional;
use number::end_number;
use record_octets::in_handling;

// Their bits do not depend on their values.
pub fn end_codes(at: BitPlace) -> BitPlace
    requires { Placed at.0 8 }
    ensures { result.0 ≡ at.0 + 8 }
{
    let at = end_number(at, OPERATION);
    let at = end_number(at, RETRANSMIT);
    let at = end_number(at, PRECEDENCE);
    end_number(at, CLASSIFICATION)
}

pub fn end_handling(at: BitPlace, x: &[u8]) -> BitPlace
    requires { Placed at.0 (handling.size (handling_in x.now)) × (length x.now ≡ size_of_handling) }
    ensures { result.0 ≡ at.0 + handling.size (handling_in x.now) }
{
    let at = end_optional(at, MESSAGE_SIZE, &x[in_handling::SIZE..in_handling::CODES]);
    let at = end_codes(at);
    end_optional_text(at, MARKING, &x[in_handling::MARKING..in_handling::END])
}
