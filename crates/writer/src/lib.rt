// Writing a record as a header, and the check alone. A record is lent octets: any octets are some record.
#![tactic(auto)]

ghost use Rattle.std.specs.Prelude.{◌≡◌, length, IfOk};
ghost use Rattle.codec.specs.Refusals.{check_no, finding_says};
ghost use Rattle.record_octets.specs.Record.{size_of_header, header_in};
ghost use Rattle.writer.specs.Writing.{fields_fault, fields_end, record_verdict, checking, writing, output_after, told};

use bits::OctetSize;
use checker::front::check_front;
use codec::{Fault, Refusal};
use leaves::setting::{front_version, setting_of};
use record_octets::{RECORD, in_header};
use survey::{Survey, survey_blocks};

pub mod wire;

// Every field, in the order of the table: its first fault, or what legal fields show besides.
fn survey_record(h: &[u8], count: OctetSize) -> Result<Survey, Fault>
    requires { length h.now ≡ size_of_header }
    ensures fields { check_no result ≡ fields_fault (header_in h.now) }
    ensures found { IfOk result (λ s. (finding_says s.finding ≡ record_verdict (header_in h.now) count.0) × (s.end.0 ≡ fields_end (header_in h.now))) }
{
    check_front(&h[in_header::FRONT..in_header::SIZED])?;
    let version = front_version(&h[in_header::FRONT..in_header::SIZED]);
    let x = setting_of(h);
    let at = wire::blocks_place(h);
    survey_blocks(version, x, &h[in_header::BLOCKS..in_header::END], count, at)
}

// Whether a record is valid with so many octets of user data: the fields, then the rules (41 to 49), the
// sizes (52 to 54) and the datagram's length (12). The answer is the octets that its header has; or why it is refused:
// the place of the refusal is always 0, and its block is 0 where it is about none.
pub fn check(h: &[u8; RECORD], count: OctetSize) -> Result<OctetSize, Refusal<Fault>>
    ensures { told result ≡ checking (header_in h.now) count.0 }
{
    let survey = survey_record(h, count)?;
    survey.finding?;
    let octets = bits::whole_octets(survey.end);
    if 65507 - octets.0 < count.0 {
        return Err(Refusal::from(Fault::TooLong));
    }
    Ok(octets)
}

// Writes a record's header into the output: the record is checked, then the room (11); only then is
// the first bit written. Done, the output begins with the header and is otherwise as it was; refused,
// it is as it was.
pub fn write(
    h: &[u8; RECORD],
    count: OctetSize,
    out: &mut [u8],
) -> Result<OctetSize, Refusal<Fault>>
    ensures { (told result ≡ writing (header_in h.now) count.0 (length out.old)) × (out.new ≡ output_after (header_in h.now) (writing (header_in h.now) count.0 (length out.old)) out.old) }
{
    let size = check(h, count)?;
    if out.len() < size.0 {
        return Err(Refusal::from(Fault::NoRoom));
    }
    wire::write_header(out, h, size);
    Ok(size)
}
