// A block's G8: the answer to a message.
ghost use Rattle.codec.specs.Writes.{Room, Writes};
ghost use Rattle.header.specs.Table.{compliance};
ghost use Rattle.record_octets.specs.Record.{size_of_compliance, compliance_in};
ghost use Rattle.std.specs.Prelude.{length, ◌≡◌};

use crate::part::Write;
use crate::texts::write_optional_text;
use bits::BitPlace;
use header::layout::{AMPLIFICATION, CANTCO, CANTPRO, COMPLIANCE};
use header::{Response, Stamp};
use leaves::numbers::{write_optional, write_word};
use record_octets::{in_compliance, in_response};

pub fn write_compliance(out: &mut [u8], at: BitPlace, x: &[u8]) -> BitPlace
    requires { Room out.old at.0 (compliance.size (compliance_in x.now)) × (length x.now ≡ size_of_compliance) }
    ensures { Writes compliance (compliance_in x.now) out.old out.new at.0 result.0 }
{
    let at = write_word(
        out,
        at,
        COMPLIANCE,
        &x[in_compliance::CODE..in_compliance::CANTCO],
    );
    let at = write_optional(
        out,
        at,
        CANTCO,
        &x[in_compliance::CANTCO..in_compliance::CANTPRO],
    );
    write_optional(
        out,
        at,
        CANTPRO,
        &x[in_compliance::CANTPRO..in_compliance::END],
    )
}

impl Write for Response {
    fn write(out: &mut [u8], at: BitPlace, x: &[u8]) -> BitPlace {
        let at = Stamp::write(out, at, &x[in_response::STAMP..in_response::COMPLIANCE]);
        let at = write_compliance(
            out,
            at,
            &x[in_response::COMPLIANCE..in_response::AMPLIFICATION],
        );
        write_optional_text(
            out,
            at,
            AMPLIFICATION,
            &x[in_response::AMPLIFICATION..in_response::END],
        )
    }
}
