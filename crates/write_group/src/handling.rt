// A block's message size, codes and control marking.
ghost use Rattle.codec.specs.Writes.{Room, Writes};
ghost use Rattle.header.specs.Table.{codes, handling};
ghost use Rattle.record_octets.specs.Record.{size_of_codes, codes_in, size_of_handling, handling_in};
ghost use Rattle.std.specs.Prelude.{length, ◌≡◌};

use crate::texts::write_optional_text;
use bits::BitPlace;
use header::layout::{CLASSIFICATION, MARKING, MESSAGE_SIZE, OPERATION, PRECEDENCE, RETRANSMIT};
use leaves::numbers::{write_optional, write_word};
use record_octets::{in_codes, in_handling};

pub fn write_codes(out: &mut [u8], at: BitPlace, x: &[u8]) -> BitPlace
    requires { Room out.old at.0 (codes.size (codes_in x.now)) × (length x.now ≡ size_of_codes) }
    ensures { Writes codes (codes_in x.now) out.old out.new at.0 result.0 }
{
    let at = write_word(
        out,
        at,
        OPERATION,
        &x[in_codes::OPERATION..in_codes::RETRANSMIT],
    );
    let at = write_word(
        out,
        at,
        RETRANSMIT,
        &x[in_codes::RETRANSMIT..in_codes::PRECEDENCE],
    );
    let at = write_word(
        out,
        at,
        PRECEDENCE,
        &x[in_codes::PRECEDENCE..in_codes::CLASSIFICATION],
    );
    write_word(
        out,
        at,
        CLASSIFICATION,
        &x[in_codes::CLASSIFICATION..in_codes::END],
    )
}

pub fn write_handling(out: &mut [u8], at: BitPlace, x: &[u8]) -> BitPlace
    requires { Room out.old at.0 (handling.size (handling_in x.now)) × (length x.now ≡ size_of_handling) }
    ensures { Writes handling (handling_in x.now) out.old out.new at.0 result.0 }
{
    let at = write_optional(
        out,
        at,
        MESSAGE_SIZE,
        &x[in_handling::SIZE..in_handling::CODES],
    );
    let at = write_codes(out, at, &x[in_handling::CODES..in_handling::MARKING]);
    write_optional_text(out, at, MARKING, &x[in_handling::MARKING..in_handling::END])
}
