// A block's G8: the answer to a message.
ghost use Rattle.std.specs.Prelude.{◌≡◌, ◌+◌, length};
ghost use Rattle.codec.specs.Writes.{Placed};
ghost use Rattle.header.specs.Table.{compliance};
ghost use Rattle.record_octets.specs.Record.{size_of_compliance, compliance_in};

use crate::part::End;
use crate::texts::end_optional_text;
use bits::BitPlace;
use header::layout::{AMPLIFICATION, CANTCO, CANTPRO, COMPLIANCE};
use header::{Response, Stamp};
use leaves::numbers::end_optional;
use number::end_number;
use record_octets::{in_compliance, in_response};

pub fn end_compliance(at: BitPlace, x: &[u8]) -> BitPlace
    requires { Placed at.0 (compliance.size (compliance_in x.now)) × (length x.now ≡ size_of_compliance) }
    ensures { result.0 ≡ at.0 + compliance.size (compliance_in x.now) }
{
    let at = end_number(at, COMPLIANCE);
    let at = end_optional(
        at,
        CANTCO,
        &x[in_compliance::CANTCO..in_compliance::CANTPRO],
    );
    end_optional(at, CANTPRO, &x[in_compliance::CANTPRO..in_compliance::END])
}

impl End for Response {
    fn end(at: BitPlace, x: &[u8]) -> BitPlace {
        let at = Stamp::end(at, &x[in_response::STAMP..in_response::COMPLIANCE]);
        let at = end_compliance(at, &x[in_response::COMPLIANCE..in_response::AMPLIFICATION]);
        end_optional_text(
            at,
            AMPLIFICATION,
            &x[in_response::AMPLIFICATION..in_response::END],
        )
    }
}
