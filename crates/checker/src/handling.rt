// A block's message size, codes and control marking.
ghost use Rattle.std.specs.Prelude.{◌≡◌, length};
ghost use Rattle.codec.specs.Refusals.{check_no};
ghost use Rattle.header.specs.Table.{codes, handling};
ghost use Rattle.record_octets.specs.Record.{size_of_codes, codes_in, size_of_handling, handling_in};

use crate::texts::check_optional_text;
use codec::Fault;
use header::layout::{CLASSIFICATION, MARKING, MESSAGE_SIZE, OPERATION, PRECEDENCE, RETRANSMIT};
use leaves::numbers::{check_optional, check_word};
use record_octets::{in_codes, in_handling};

pub fn check_codes(x: &[u8]) -> Result<(), Fault>
    requires { length x.now ≡ size_of_codes }
    ensures { check_no result ≡ codes.check (codes_in x.now) }
{
    check_word(
        OPERATION,
        Fault::Code,
        &x[in_codes::OPERATION..in_codes::RETRANSMIT],
    )?;
    check_word(
        RETRANSMIT,
        Fault::Code,
        &x[in_codes::RETRANSMIT..in_codes::PRECEDENCE],
    )?;
    check_word(
        PRECEDENCE,
        Fault::Code,
        &x[in_codes::PRECEDENCE..in_codes::CLASSIFICATION],
    )?;
    check_word(
        CLASSIFICATION,
        Fault::Code,
        &x[in_codes::CLASSIFICATION..in_codes::END],
    )
}

pub fn check_handling(x: &[u8]) -> Result<(), Fault>
    requires { length x.now ≡ size_of_handling }
    ensures { check_no result ≡ handling.check (handling_in x.now) }
{
    check_optional(MESSAGE_SIZE, &x[in_handling::SIZE..in_handling::CODES])?;
    check_codes(&x[in_handling::CODES..in_handling::MARKING])?;
    check_optional_text(MARKING, &x[in_handling::MARKING..in_handling::END])
}
