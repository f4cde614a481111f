// A block's G8: the answer to a message.
ghost use Rattle.std.specs.Prelude.{◌≡◌, ◌≤◌, length};
ghost use Rattle.bits.specs.Datagrams.{bits_in};
ghost use Rattle.cells.specs.Cells.{zeros};
ghost use Rattle.header.specs.Table.{compliance, response, optional_response};
ghost use Rattle.into.specs.Into.{Into};
ghost use Rattle.record_octets.specs.Record.{size_of_compliance, compliance_octets, size_of_response, response_octets, size_of_optional_response, optional_response_octets};
ghost use Rattle.record_octets.specs.Typed.{TypedCompliance, TypedResponse, TypedOptionalResponse};

use crate::dtg::read_stamp;
use bits::{BitPlace, Datagram};
use cells::store_mark;
use codec::{Fault, Step};
use flag::read_flag;
use header::layout::{AMPLIFICATION, CANTCO, CANTPRO, COMPLIANCE};
use read_leaves::numbers::{read_optional, read_word};
use read_leaves::texts::read_optional_text;
use record_octets::{in_compliance, in_optional_response, in_response};

pub fn read_compliance(s: Datagram, at: BitPlace, x: &mut [u8]) -> Step
    requires { (x.old ≡ zeros size_of_compliance) × (length x.old ≡ size_of_compliance) }
    ensures { Into compliance compliance_octets TypedCompliance (bits_in s.entry) at.0 result x.new }
{
    let at = read_word(
        s,
        at,
        COMPLIANCE,
        Fault::Code,
        &mut x[in_compliance::CODE..in_compliance::CANTCO],
    )?;
    let at = read_optional(
        s,
        at,
        CANTCO,
        &mut x[in_compliance::CANTCO..in_compliance::CANTPRO],
    )?;
    read_optional(
        s,
        at,
        CANTPRO,
        &mut x[in_compliance::CANTPRO..in_compliance::END],
    )
}

pub fn read_response(s: Datagram, at: BitPlace, x: &mut [u8]) -> Step
    requires { (x.old ≡ zeros size_of_response) × (length x.old ≡ size_of_response) }
    ensures { Into response response_octets TypedResponse (bits_in s.entry) at.0 result x.new }
{
    let at = read_stamp(s, at, &mut x[in_response::STAMP..in_response::COMPLIANCE])?;
    let at = read_compliance(
        s,
        at,
        &mut x[in_response::COMPLIANCE..in_response::AMPLIFICATION],
    )?;
    read_optional_text(
        s,
        at,
        AMPLIFICATION,
        &mut x[in_response::AMPLIFICATION..in_response::END],
    )
}

pub fn read_optional_response(s: Datagram, at: BitPlace, x: &mut [u8]) -> Step
    requires { (x.old ≡ zeros size_of_optional_response) × (length x.old ≡ size_of_optional_response) }
    ensures { Into optional_response optional_response_octets TypedOptionalResponse (bits_in s.entry) at.0 result x.new }
{
    let (present, at) = read_flag(s, at)?;
    if present {
        store_mark(
            &mut x[in_optional_response::PRESENT..in_optional_response::RESPONSE],
            present,
        );
        return read_response(
            s,
            at,
            &mut x[in_optional_response::RESPONSE..in_optional_response::END],
        );
    }
    Ok(at)
}
