// The record, put into octets, and the key that a line describes.
ghost use Rattle.std.specs.Prelude.{◌≡◌, length};
ghost use Rattle.record_octets.specs.Record.{size_of_addresses, size_of_addresses_list, size_of_blocks, size_of_blocks_list, size_of_front, size_of_header, size_of_optional_address, size_of_optional_addresses};
ghost use Rattle.table_octets.specs.Table.{size_of_key};

use crate::block::block;
use crate::put::{address, flag, stamp};
use crate::words::Line;
use crate::words::Part::*;
use bits::OctetSize;
use cells::store_word;
use header::Address;
use header::zero::no_address;
use record_octets::{
    RECORD, in_addresses, in_blocks, in_front, in_header, in_optional_address,
    in_optional_addresses,
};
use table_octets::{KEY, in_key};

// All alike.
fn block_list(list: &mut [u8], line: &Line)
    requires { length list.old ≡ size_of_blocks_list }
{
    for entry in list.chunks_exact_mut(in_blocks::ENTRY) {
        block(entry, line);
    }
}

// The blocks behind the first differ from it in the extension, which is 9, and may differ in the UMF.
fn next(line: &Line) -> Line {
    let format = line.get(LaterFormat);
    line.with(Extension, Some(9)).with(InFormat, format)
}

fn blocks(x: &mut [u8], line: &Line)
    requires { length x.old ≡ size_of_blocks }
{
    block_list(&mut x[in_blocks::LIST..in_blocks::COUNT], &next(line));
    block(&mut x[in_blocks::LIST..in_blocks::ENTRY], line);
    store_word(&mut x[in_blocks::COUNT..in_blocks::END], line.cell(Blocks));
}

fn originator(x: &mut [u8], line: &Line)
    requires { length x.old ≡ size_of_optional_address }
{
    flag(
        &mut x[in_optional_address::PRESENT..in_optional_address::ADDRESS],
        line.from.is_some(),
    );
    address(
        &mut x[in_optional_address::ADDRESS..in_optional_address::END],
        line.from.unwrap_or(no_address()),
    );
}

fn address_list(list: &mut [u8], to: &[Address; 16])
    requires { length list.old ≡ size_of_addresses_list }
{
    for (entry, to) in list.chunks_exact_mut(in_addresses::ENTRY).zip(to) {
        address(entry, *to);
    }
}

fn addresses(x: &mut [u8], line: &Line)
    requires { length x.old ≡ size_of_addresses }
{
    address_list(&mut x[in_addresses::LIST..in_addresses::COUNT], &line.to);
    store_word(&mut x[in_addresses::COUNT..in_addresses::END], line.count);
}

fn recipients(x: &mut [u8], line: &Line)
    requires { length x.old ≡ size_of_optional_addresses }
{
    flag(
        &mut x[in_optional_addresses::PRESENT..in_optional_addresses::ADDRESSES],
        0 < line.count,
    );
    addresses(
        &mut x[in_optional_addresses::ADDRESSES..in_optional_addresses::END],
        line,
    );
}

// Without compression and without G3: their flags are the first octets of their fields.
fn front(x: &mut [u8], line: &Line)
    requires { length x.old ≡ size_of_front }
{
    store_word(
        &mut x[in_front::VERSION..in_front::COMPRESSION],
        line.cell(Version),
    );
    flag(&mut x[in_front::COMPRESSION..in_front::ORIGINATOR], false);
    originator(&mut x[in_front::ORIGINATOR..in_front::RECIPIENTS], line);
    recipients(&mut x[in_front::RECIPIENTS..in_front::INFORMATION], line);
    flag(&mut x[in_front::INFORMATION..in_front::END], false);
}

// Several blocks have a header size, unless a line takes it away.
fn header(x: &mut [u8], line: &Line)
    requires { length x.old ≡ size_of_header }
{
    front(&mut x[in_header::FRONT..in_header::SIZED], line);
    flag(
        &mut x[in_header::SIZED..in_header::BLOCKS],
        line.cell(Blocks) != 1 && !line.has(NoHeaderSize),
    );
    blocks(&mut x[in_header::BLOCKS..in_header::END], line);
}

// The octets between the cells, and the cells of what is absent, hold rubbish.
pub fn record(line: &Line) -> [u8; RECORD] {
    let mut h = [165u8; RECORD];
    header(&mut h, line);
    h
}

fn fill_key(x: &mut [u8], line: &Line)
    requires { length x.old ≡ size_of_key }
{
    let from = line.from.unwrap_or(no_address());
    address(&mut x[in_key::ADDRESS..in_key::STAMP], from);
    stamp(&mut x[in_key::STAMP..in_key::END], line.stamp());
}

// The key of a release, with rubbish in what is absent.
pub fn key(line: &Line) -> [u8; KEY] {
    let mut k = [165u8; KEY];
    fill_key(&mut k, line);
    k
}

// The octets of user data: unless a line tells them, one, and none behind a receipt.
pub fn data(line: &Line) -> OctetSize {
    match line.get(UserData) {
        Some(octets) => OctetSize(octets as usize),
        None if line.has(Code) => OctetSize(0),
        None => OctetSize(1),
    }
}
