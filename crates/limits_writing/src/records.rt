// The record that a plan describes, put into octets, struct by struct.
ghost use Rattle.std.specs.Prelude.{◌≡◌, length};
ghost use Rattle.record_octets.specs.Record.{size_of_addresses, size_of_addresses_list, size_of_blocks, size_of_blocks_list, size_of_front, size_of_header, size_of_optional_address, size_of_optional_addresses};

use crate::block::block;
use crate::parts::*;
use crate::plan::Key::*;
use crate::plan::Plan;
use cells::store_word;
use record_octets::{
    RECORD, in_addresses, in_blocks, in_front, in_header, in_optional_address,
    in_optional_addresses,
};

// The characters of the originator's name, of which a plan may put in another.
fn characters(p: &Plan) -> [u8; 64] {
    let mut chars = CHARACTERS;
    if let Some(place) = p.get(Place)
        && place < 64
    {
        chars[place as usize] = (p.cell(Character) % 256) as u8;
    }
    chars
}

// G1.
fn originator(x: &mut [u8], p: &Plan)
    requires { length x.old ≡ size_of_optional_address }
{
    flag(
        &mut x[in_optional_address::PRESENT..in_optional_address::ADDRESS],
        p.has(Urn) || p.has(Name) || p.is_set(Neither),
        p.mark(),
    );
    let there = &mut x[in_optional_address::ADDRESS..in_optional_address::END];
    address(there, p.get(Urn), characters(p), p.get(Name), p.mark());
}

// All alike.
fn address_list(list: &mut [u8], urn: Option<u32>, len: Option<u32>, mark: u8)
    requires { length list.old ≡ size_of_addresses_list }
{
    for entry in list.chunks_exact_mut(in_addresses::ENTRY) {
        address(entry, urn, CHARACTERS, len, mark);
    }
}

// The first has a URN of its own.
fn addresses(
    x: &mut [u8],
    first: Option<u32>,
    rest: Option<u32>,
    len: Option<u32>,
    count: u32,
    mark: u8,
)
    requires { length x.old ≡ size_of_addresses }
{
    address_list(
        &mut x[in_addresses::LIST..in_addresses::COUNT],
        rest,
        len,
        mark,
    );
    address(
        &mut x[in_addresses::LIST..in_addresses::ENTRY],
        first,
        CHARACTERS,
        len,
        mark,
    );
    store_word(&mut x[in_addresses::COUNT..in_addresses::END], count);
}

// G2.
fn recipients(x: &mut [u8], p: &Plan)
    requires { length x.old ≡ size_of_optional_addresses }
{
    flag(
        &mut x[in_optional_addresses::PRESENT..in_optional_addresses::ADDRESSES],
        p.has(Recipients),
        p.mark(),
    );
    let there = &mut x[in_optional_addresses::ADDRESSES..in_optional_addresses::END];
    addresses(
        there,
        p.get(RecipientUrn),
        p.get(NextRecipient),
        p.get(RecipientName),
        p.cell(Recipients),
        p.mark(),
    );
}

// G3.
fn information(x: &mut [u8], p: &Plan)
    requires { length x.old ≡ size_of_optional_addresses }
{
    let urn = p.get(InformationUrn);
    flag(
        &mut x[in_optional_addresses::PRESENT..in_optional_addresses::ADDRESSES],
        p.has(Information),
        p.mark(),
    );
    let there = &mut x[in_optional_addresses::ADDRESSES..in_optional_addresses::END];
    addresses(there, urn, urn, None, p.cell(Information), p.mark());
}

fn front(x: &mut [u8], p: &Plan)
    requires { length x.old ≡ size_of_front }
{
    store_word(
        &mut x[in_front::VERSION..in_front::COMPRESSION],
        p.cell(Version),
    );
    optional(
        &mut x[in_front::COMPRESSION..in_front::ORIGINATOR],
        p.get(Compression),
        p.mark(),
    );
    originator(&mut x[in_front::ORIGINATOR..in_front::RECIPIENTS], p);
    recipients(&mut x[in_front::RECIPIENTS..in_front::INFORMATION], p);
    information(&mut x[in_front::INFORMATION..in_front::END], p);
}

// The plan of the blocks behind the first.
fn next(p: &Plan) -> Plan {
    p.with(&[
        Umf.maybe(p.get(NextUmf)),
        Size.maybe(p.get(NextSize)),
        Code.maybe(p.get(NextCode)),
        Standard.maybe(p.get(NextStandard)),
    ])
}

// The plan of the 16th block.
fn last(p: &Plan) -> Plan {
    next(p).with(&[Size.maybe(p.get(LastSize))])
}

// All alike.
fn block_list(list: &mut [u8], p: &Plan)
    requires { length list.old ≡ size_of_blocks_list }
{
    for entry in list.chunks_exact_mut(in_blocks::ENTRY) {
        block(entry, p);
    }
}

fn blocks(x: &mut [u8], p: &Plan)
    requires { length x.old ≡ size_of_blocks }
{
    block_list(&mut x[in_blocks::LIST..in_blocks::COUNT], &next(p));
    block(&mut x[in_blocks::LIST..in_blocks::ENTRY], p);
    block(&mut x[15 * in_blocks::ENTRY..in_blocks::COUNT], &last(p));
    store_word(&mut x[in_blocks::COUNT..in_blocks::END], p.cell(Blocks));
}

fn header(x: &mut [u8], p: &Plan)
    requires { length x.old ≡ size_of_header }
{
    front(&mut x[in_header::FRONT..in_header::SIZED], p);
    flag(
        &mut x[in_header::SIZED..in_header::BLOCKS],
        p.is_set(HeaderSize),
        p.mark(),
    );
    blocks(&mut x[in_header::BLOCKS..in_header::END], p);
}

// The octets that belong to no cell hold rubbish.
pub fn record(p: &Plan) -> [u8; RECORD] {
    let mut h = [165u8; RECORD];
    header(&mut h, p);
    h
}
