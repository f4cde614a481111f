// A block's G8: the answer to a message.
ghost use Rattle.std.specs.Prelude.{◌≡◌, length};
ghost use Rattle.codec.specs.Refusals.{check_no};
ghost use Rattle.header.specs.Table.{compliance};
ghost use Rattle.record_octets.specs.Record.{size_of_compliance, compliance_in};

use crate::part::Check;
use crate::texts::check_optional_text;
use codec::Fault;
use header::layout::{AMPLIFICATION, CANTCO, CANTPRO, COMPLIANCE};
use header::{Response, Stamp};
use leaves::numbers::{check_optional, check_word};
use record_octets::{in_compliance, in_response};

pub fn check_compliance(x: &[u8]) -> Result<(), Fault>
    requires { length x.now ≡ size_of_compliance }
    ensures { check_no result ≡ compliance.check (compliance_in x.now) }
{
    check_word(
        COMPLIANCE,
        Fault::Code,
        &x[in_compliance::CODE..in_compliance::CANTCO],
    )?;
    check_optional(CANTCO, &x[in_compliance::CANTCO..in_compliance::CANTPRO])?;
    check_optional(CANTPRO, &x[in_compliance::CANTPRO..in_compliance::END])
}

impl Check for Response {
    fn check(x: &[u8]) -> Result<(), Fault> {
        Stamp::check(&x[in_response::STAMP..in_response::COMPLIANCE])?;
        check_compliance(&x[in_response::COMPLIANCE..in_response::AMPLIFICATION])?;
        check_optional_text(
            AMPLIFICATION,
            &x[in_response::AMPLIFICATION..in_response::END],
        )
    }
}
