// What a call takes out of a record, and out of one of its blocks, where it lies.
ghost use Rattle.std.specs.Prelude.{◌≡◌, length};
ghost use Rattle.header.specs.Zero.{no_address};
ghost use Rattle.record_octets.specs.Record.{size_of_address, address_in, size_of_addresses, addresses_in, size_of_stamp, stamp_in, size_of_block, block_in, size_of_header, header_in};
ghost use Rattle.order.specs.Values.{key_of};
ghost use Rattle.table_octets.specs.Table.{size_of_key, key_octets};
ghost use Rattle.table_octets.specs.Typed.{TypedKey};
ghost use Rattle.table_octets.specs.Image.{key_image};
ghost use Rattle.arguments.specs.Arguments.{first_recipient, posting_key, receipt_key};

use cells::entry;
use header::Requests;
use images::put_key;
use leaves::requests::load_requests;
use record_octets::{
    in_addresses, in_block, in_front, in_header, in_optional_address, in_optional_addresses,
    in_optional_requests, in_optional_response, in_optional_stamp, in_response, in_times,
};

// G1.
pub fn originator(h: &[u8]) -> &[u8]
    requires { length h.now ≡ size_of_header }
    ensures { (length result.now ≡ size_of_address) × (address_in result.now ≡ (header_in h.now).front.originator.address) }
{
    let front = &h[in_header::FRONT..in_header::SIZED];
    let group = &front[in_front::ORIGINATOR..in_front::RECIPIENTS];
    &group[in_optional_address::ADDRESS..in_optional_address::END]
}

// The list of G2.
pub fn recipients(h: &[u8]) -> &[u8]
    requires { length h.now ≡ size_of_header }
    ensures { (length result.now ≡ size_of_addresses) × (addresses_in result.now ≡ (header_in h.now).front.recipients.addresses) }
{
    let front = &h[in_header::FRONT..in_header::SIZED];
    let group = &front[in_front::RECIPIENTS..in_front::INFORMATION];
    &group[in_optional_addresses::ADDRESSES..in_optional_addresses::END]
}

fn first_recipient(h: &[u8]) -> &[u8]
    requires { length h.now ≡ size_of_header }
    ensures { (length result.now ≡ size_of_address) × (address_in result.now ≡ first_recipient (header_in h.now)) }
{
    let x = recipients(h);
    let list = &x[in_addresses::LIST..in_addresses::COUNT];
    entry(list, 0, in_addresses::ENTRY)
}

// The stamp of G5.
fn origin(b: &[u8]) -> &[u8]
    requires { length b.now ≡ size_of_block }
    ensures { (length result.now ≡ size_of_stamp) × (stamp_in result.now ≡ (block_in b.now).times.origin.stamp) }
{
    let times = &b[in_block::TIMES..in_block::RESPONSE];
    let group = &times[in_times::ORIGIN..in_times::PERISH];
    &group[in_optional_stamp::STAMP..in_optional_stamp::END]
}

// The stamp of G8: that of the message that it answers.
fn answered(b: &[u8]) -> &[u8]
    requires { length b.now ≡ size_of_block }
    ensures { (length result.now ≡ size_of_stamp) × (stamp_in result.now ≡ (block_in b.now).response.response.stamp) }
{
    let group = &b[in_block::RESPONSE..in_block::REFERENCES];
    let response = &group[in_optional_response::RESPONSE..in_optional_response::END];
    &response[in_response::STAMP..in_response::COMPLIANCE]
}

// The requests of G7.
pub fn load_asked(b: &[u8]) -> Requests
    requires { length b.now ≡ size_of_block }
    ensures { result ≡ (block_in b.now).times.requests.requests }
{
    let times = &b[in_block::TIMES..in_block::RESPONSE];
    let group = &times[in_times::REQUESTS..in_times::END];
    load_requests(&group[in_optional_requests::REQUESTS..in_optional_requests::END])
}

// A posting's key: its originator with its block's G5. Nothing is in its unused cells.
pub fn put_posting_key(k: &mut [u8], h: &[u8], b: &[u8])
    requires { (length k.old ≡ size_of_key) × (length h.now ≡ size_of_header) × (length b.now ≡ size_of_block) }
    ensures { (k.new ≡ key_octets (key_image (key_of (posting_key (header_in h.now) (block_in b.now))))) × TypedKey (key_image (key_of (posting_key (header_in h.now) (block_in b.now)))) }
{
    put_key(k, originator(h), origin(b));
}

// A receipt's key: its one recipient with its block's G8.
pub fn put_receipt_key(k: &mut [u8], h: &[u8], b: &[u8])
    requires { (length k.old ≡ size_of_key) × (length h.now ≡ size_of_header) × (length b.now ≡ size_of_block) }
    ensures { (k.new ≡ key_octets (key_image (key_of (receipt_key (header_in h.now) (block_in b.now))))) × TypedKey (key_image (key_of (receipt_key (header_in h.now) (block_in b.now)))) }
{
    put_key(k, first_recipient(h), answered(b));
}
