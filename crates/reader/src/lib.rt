// Reading a datagram into a record, which is lent octets, and handing back the user data behind the header.
#![tactic(auto)]

ghost use Rattle.std.specs.Prelude.{◌≡◌, length};
ghost use Rattle.codec.specs.Refusals.{finding_says};
ghost use Rattle.cells.specs.Cells.{zeros};
ghost use Rattle.record_octets.specs.Record.{size_of_header, header_in};
ghost use Rattle.reader.specs.Reading.{reading, verdict_on, user_data};
ghost use Rattle.reader.specs.Told.{told, to_tell, record_after, Holds, Fills};

use bits::{BitPlace, Datagram, OctetSize};
use codec::{BlockFault, Fault, Refusal};
use leaves::setting::setting_of;
use optional::OptionalNumber;
use record_octets::{RECORD, in_header};
use rules::seen::see_blocks;

pub mod fill;
pub mod wire;

// Behind the fill bits: the rules, then the sizes. The header size, where it is present, is the header's octets.
fn judge(
    h: &[u8],
    size: OptionalNumber,
    octets: OctetSize,
    behind: OctetSize,
) -> Result<(), BlockFault>
    requires { length h.now ≡ size_of_header }
    ensures { finding_says result ≡ verdict_on (header_in h.now) size octets.0 behind.0 }
{
    let x = setting_of(h);
    let holds = !size.present || size.value as usize == octets.0;
    see_blocks(x, &h[in_header::BLOCKS..in_header::END], behind, holds)
}

// Reads a datagram into the octets of a record, which are all 0: the length first (12), then the fields from the left, the
// fill bits (9), the rules (41 to 49) and the sizes (51 to 54). The header's octets, or the refusal.
fn read_into(datagram: &[u8], h: &mut [u8]) -> Result<OctetSize, Refusal<Fault>>
    requires { (h.old ≡ zeros size_of_header) × (length h.old ≡ size_of_header) }
    ensures { (told result ≡ to_tell (reading datagram.now)) × Fills (reading datagram.now) h.new }
{
    if 65507 < datagram.len() {
        return Err(Refusal::from(Fault::TooLong));
    }
    let s = Datagram { octets: datagram };
    let (size, end) = wire::read_fields(s, BitPlace(0), h)?;
    fill::read_fill(s, end)?;
    let length = bits::whole_octets(end);
    let behind = OctetSize(datagram.len() - length.0);
    judge(h, size, length, behind)?;
    Ok(length)
}

// Reads a datagram, and tells the header's octets. Done, every octet of the record is determined: those of the record that was
// read, with each unused cell and each octet between the cells 0. Refused, the record is as it was: it is filled only once all
// is accepted.
pub fn read(datagram: &[u8], header: &mut [u8; RECORD]) -> Result<OctetSize, Refusal<Fault>>
    ensures { (told result ≡ to_tell (reading datagram.now)) × (header.new ≡ record_after (reading datagram.now) header.old) × Holds (reading datagram.now) header.new }
{
    let mut octets = [0u8; RECORD];
    let length = read_into(datagram, &mut octets)?;
    *header = octets;
    Ok(length)
}

// The user data: what lies behind the header in the datagram itself, and nothing where the datagram is
// refused.
pub fn user_data(datagram: &[u8]) -> &[u8]
    ensures { result.now ≡ user_data datagram.now }
{
    let mut octets = [0u8; RECORD];
    match read_into(datagram, &mut octets) {
        Ok(length) => &datagram[length.0..],
        Err(_) => &datagram[datagram.len()..],
    }
}
