// The lines of a row's recipients.
ghost use Rattle.std.specs.Prelude.{◌≡◌, map, ◌+◌, ◌≤◌, length, take};
ghost use Rattle.codec.specs.Answer.{pick};
ghost use Rattle.order.specs.Requests.{ask_of};
ghost use Rattle.table.specs.Rows.{code_of, recipient_of};
ghost use Rattle.cells.specs.Cells.{word_in, many};
ghost use Rattle.table_octets.specs.Table.{size_of_recipient, recipient_in, size_of_row_recipients};
ghost use Rattle.row_text.specs.Text.{code_text, request_text, recipient_lines};
ghost use Rattle.row_text.specs.Parts.{requests_text, line_of};
ghost use Rattle.row_text.specs.Puts.{Puts};

use crate::addresses::{address_length, put_address, used};
use crate::digits::{decimal_length, put_decimal, put_octet, put_octets};
use bits::OctetSize;
use cells::{entry, load_word};
use header::Requests;
use table_octets::{in_recipient, in_row};

fn code_length(code: u32) -> OctetSize
    ensures { (result.0 ≡ length (code_text (code_of code))) × (result.0 ≤ 10) }
{
    if code == 0 {
        return OctetSize(1);
    }
    decimal_length(code)
}

fn put_code(out: &mut [u8], at: OctetSize, code: u32) -> OctetSize
    requires { at.0 + length (code_text (code_of code)) ≤ length out.old }
    ensures { Puts (code_text (code_of code)) out.old out.new at.0 result.0 }
{
    if code == 0 {
        return put_octet(out, at, b'?');
    }
    put_decimal(out, at, code)
}

fn request_length(asked: bool, x: &[u8]) -> OctetSize
    requires { length x.now ≡ 4 }
    ensures { (result.0 ≡ pick asked (length (code_text (code_of (word_in x.now))) + 3) 0) × (result.0 ≤ 13) }
{
    if asked {
        let code = load_word(x);
        let size = code_length(code);
        return OctetSize(size.0 + 3);
    }
    OctetSize(0)
}

fn put_request(out: &mut [u8], at: OctetSize, asked: bool, letter: u8, x: &[u8]) -> OctetSize
    requires { (at.0 + length (request_text asked letter (code_of (word_in x.now))) ≤ length out.old) × (length x.now ≡ 4) }
    ensures { Puts (request_text asked letter (code_of (word_in x.now))) out.old out.new at.0 result.0 }
{
    if asked {
        let code = load_word(x);
        let at = put_octet(out, at, b' ');
        let at = put_octet(out, at, letter);
        let at = put_octet(out, at, b'=');
        return put_code(out, at, code);
    }
    at
}

fn requests_length(asked: Requests, x: &[u8]) -> OctetSize
    requires { length x.now ≡ size_of_recipient }
    ensures { (result.0 ≡ length (requests_text asked (recipient_in x.now))) × (result.0 ≤ 39) }
{
    let machine = request_length(
        asked.machine,
        &x[in_recipient::MACHINE..in_recipient::ACKNOWLEDGE],
    );
    let acknowledge = request_length(
        asked.acknowledge,
        &x[in_recipient::ACKNOWLEDGE..in_recipient::REPLY],
    );
    let reply = request_length(asked.reply, &x[in_recipient::REPLY..in_recipient::END]);
    OctetSize(machine.0 + acknowledge.0 + reply.0)
}

fn put_requests(out: &mut [u8], at: OctetSize, asked: Requests, x: &[u8]) -> OctetSize
    requires { (at.0 + length (requests_text asked (recipient_in x.now)) ≤ length out.old) × (length x.now ≡ size_of_recipient) }
    ensures { Puts (requests_text asked (recipient_in x.now)) out.old out.new at.0 result.0 }
{
    let machine = &x[in_recipient::MACHINE..in_recipient::ACKNOWLEDGE];
    let acknowledge = &x[in_recipient::ACKNOWLEDGE..in_recipient::REPLY];
    let reply = &x[in_recipient::REPLY..in_recipient::END];
    let at = put_request(out, at, asked.machine, b'm', machine);
    let at = put_request(out, at, asked.acknowledge, b'o', acknowledge);
    put_request(out, at, asked.reply, b'r', reply)
}

fn recipient_length(asked: Requests, x: &[u8]) -> OctetSize
    requires { length x.now ≡ size_of_recipient }
    ensures { (result.0 ≡ length (line_of asked (recipient_in x.now))) × (result.0 ≤ 236) }
{
    let address = address_length(&x[in_recipient::ADDRESS..in_recipient::MACHINE]);
    let requests = requests_length(asked, x);
    OctetSize(address.0 + requests.0 + 3)
}

fn put_recipient(out: &mut [u8], at: OctetSize, asked: Requests, x: &[u8]) -> OctetSize
    requires { (at.0 + length (line_of asked (recipient_in x.now)) ≤ length out.old) × (length x.now ≡ size_of_recipient) }
    ensures { Puts (line_of asked (recipient_in x.now)) out.old out.new at.0 result.0 }
{
    let at = put_octets(out, at, b"  ");
    let at = put_address(out, at, &x[in_recipient::ADDRESS..in_recipient::MACHINE]);
    let at = put_requests(out, at, asked, x);
    put_octet(out, at, b'\n')
}

pub fn recipients_length(asked: Requests, list: &[u8], count: u32) -> OctetSize
    requires { length list.now ≡ size_of_row_recipients }
    ensures { (result.0 ≡ length (recipient_lines (ask_of asked) (map recipient_of (take count (many recipient_in size_of_recipient 16 list.now))))) × (result.0 ≤ 3776) }
{
    let n = used(count, 16);
    let mut size = OctetSize(0);
    for i in 0..n {
        let one = recipient_length(asked, entry(list, i, in_row::ENTRY));
        size = OctetSize(size.0 + one.0);
    }
    size
}

pub fn put_recipients(
    out: &mut [u8],
    at: OctetSize,
    asked: Requests,
    list: &[u8],
    count: u32,
) -> OctetSize
    requires { (at.0 + length (recipient_lines (ask_of asked) (map recipient_of (take count (many recipient_in size_of_recipient 16 list.now)))) ≤ length out.old) × (length list.now ≡ size_of_row_recipients) }
    ensures { Puts (recipient_lines (ask_of asked) (map recipient_of (take count (many recipient_in size_of_recipient 16 list.now)))) out.old out.new at.0 result.0 }
{
    let n = used(count, 16);
    let mut place = at;
    for i in 0..n {
        place = put_recipient(out, place, asked, entry(list, i, in_row::ENTRY));
    }
    place
}
