// What the cases show of a reading.
ghost use Rattle.std.specs.Prelude.{◌≡◌, length};
ghost use Rattle.record_octets.specs.Record.{size_of_optional_addresses, size_of_header};

use cells::load_word;
use codec::{Fault, Refusal};
use leaves::numbers::load_optional;
use leaves::setting::block_count;
use record_octets::{
    RECORD, in_address, in_addresses, in_block, in_blocks, in_format, in_front, in_header,
    in_optional_address, in_optional_addresses, in_optional_references, in_optional_text,
    in_references, in_text,
};
use std::fmt;

// Of a datagram that is accepted: the octets of the header and of the user data; the length of the originator's
// name, and the counts of the lists, the references those of the first block; and that block's standard version.
#[derive(Clone, Copy)]
pub struct Accepted {
    header: usize,
    data: usize,
    name: u32,
    recipients: u32,
    information: u32,
    blocks: u32,
    references: u32,
    standard: Option<u32>,
}

// What is not as usual is told with its label.
impl fmt::Display for Accepted {
    fn fmt<W: fmt::Write>(&self, f: &mut fmt::Formatter<W>) -> fmt::Result {
        write!(f, "accepted {} {}", self.header, self.data)?;
        for (label, count, usual) in [
            ("name", self.name, 0),
            ("recipients", self.recipients, 0),
            ("information", self.information, 0),
            ("blocks", self.blocks, 1),
            ("references", self.references, 0),
        ] {
            if count != usual {
                write!(f, " {label} {count}")?;
            }
        }
        if let Some(version) = self.standard {
            write!(f, " standard version {version}")?;
        }
        Ok(())
    }
}

// The length of the originator's name.
fn name_length(h: &[u8]) -> u32
    requires { length h.now ≡ size_of_header }
{
    let front = &h[in_header::FRONT..in_header::SIZED];
    let originator = &front[in_front::ORIGINATOR..in_front::RECIPIENTS];
    let address = &originator[in_optional_address::ADDRESS..in_optional_address::END];
    let name = &address[in_address::NAME..in_address::END];
    let text = &name[in_optional_text::TEXT..in_optional_text::END];
    load_word(&text[in_text::LEN..in_text::END])
}

// The count of a list of addresses.
fn count(x: &[u8]) -> u32
    requires { length x.now ≡ size_of_optional_addresses }
{
    let addresses = &x[in_optional_addresses::ADDRESSES..in_optional_addresses::END];
    load_word(&addresses[in_addresses::COUNT..in_addresses::END])
}

fn recipients(h: &[u8]) -> u32
    requires { length h.now ≡ size_of_header }
{
    let front = &h[in_header::FRONT..in_header::SIZED];
    count(&front[in_front::RECIPIENTS..in_front::INFORMATION])
}

fn information(h: &[u8]) -> u32
    requires { length h.now ≡ size_of_header }
{
    let front = &h[in_header::FRONT..in_header::SIZED];
    count(&front[in_front::INFORMATION..in_front::END])
}

// The count of the first block's references.
fn references(h: &[u8]) -> u32
    requires { length h.now ≡ size_of_header }
{
    let blocks = &h[in_header::BLOCKS..in_header::END];
    let first = &blocks[in_blocks::LIST..in_blocks::ENTRY];
    let group = &first[in_block::REFERENCES..in_block::END];
    let list = &group[in_optional_references::REFERENCES..in_optional_references::END];
    load_word(&list[in_references::COUNT..in_references::END])
}

// The first block's standard version.
fn standard_version(h: &[u8]) -> Option<u32>
    requires { length h.now ≡ size_of_header }
{
    let blocks = &h[in_header::BLOCKS..in_header::END];
    let first = &blocks[in_blocks::LIST..in_blocks::ENTRY];
    let format = &first[in_block::FORMAT..in_block::HANDLING];
    let version = load_optional(&format[in_format::VERSION..in_format::IDENTITY]);
    version.present.then_some(version.value)
}

// The record stays here; what is shown of it is taken out of its octets.
pub fn summarise(datagram: &[u8]) -> Result<Accepted, Refusal<Fault>> {
    let mut h = [0u8; RECORD];
    let header = reader::read(datagram, &mut h)?.0;
    Ok(Accepted {
        header,
        data: reader::user_data(datagram).len(),
        name: name_length(&h),
        recipients: recipients(&h),
        information: information(&h),
        blocks: block_count(&h),
        references: references(&h),
        standard: standard_version(&h),
    })
}
