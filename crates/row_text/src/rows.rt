// Rows: the key's line and the lines of the recipients behind it; and the line that counts the rows.
ghost use Rattle.std.specs.Prelude.{◌≡◌, [], ◌∷◌, ◌++◌, ◌+◌, ◌≤◌, length};
ghost use Rattle.codec.specs.Answer.{pick};
ghost use Rattle.order.specs.Values.{address_of, option_of, key_of};
ghost use Rattle.order.specs.Requests.{ask_of};
ghost use Rattle.table.specs.Rows.{row_of};
ghost use Rattle.table_octets.specs.Table.{size_of_key, key_in, size_of_row, row_in};
ghost use Rattle.row_text.specs.Text.{two_digits, address_text, dtg_text, extension_text, asked_text, key_line, row_text, count_line};
ghost use Rattle.row_text.specs.Parts.{key_text};
ghost use Rattle.row_text.specs.Puts.{Puts};

use crate::addresses::{address_length, put_address};
use crate::digits::{decimal_length, put_decimal, put_octet, put_octets, put_two_digits};
use crate::recipients::{put_recipients, recipients_length};
use bits::OctetSize;
use cells::load_word;
use header::{Dtg, Requests};
use leaves::moment::load_stamp;
use leaves::numbers::load_optional;
use leaves::requests::load_requests;
use optional::OptionalNumber;
use record_octets::in_stamp;
use table_octets::{in_key, in_row};

// A date or a time: two digits for each number, the mark between them.
fn put_three(out: &mut [u8], at: OctetSize, mark: u8, a: u32, b: u32, d: u32) -> OctetSize
    requires { at.0 + 8 ≤ length out.old }
    ensures { Puts (two_digits a ++ mark ∷ two_digits b ++ mark ∷ two_digits d) out.old out.new at.0 result.0 }
{
    let at = put_two_digits(out, at, a);
    let at = put_octet(out, at, mark);
    let at = put_two_digits(out, at, b);
    let at = put_octet(out, at, mark);
    put_two_digits(out, at, d)
}

// Behind a space.
fn put_dtg(out: &mut [u8], at: OctetSize, k: &[u8]) -> OctetSize
    requires { (at.0 + 18 ≤ length out.old) × (length k.now ≡ size_of_key) }
    ensures { Puts (32 ∷ dtg_text (key_of (key_in k.now))) out.old out.new at.0 result.0 }
{
    let Dtg { date, time } = load_stamp(&k[in_key::STAMP..in_key::END]).dtg;
    let at = put_octet(out, at, b' ');
    let at = put_three(out, at, b'-', date.year, date.month, date.day);
    let at = put_octet(out, at, b' ');
    put_three(out, at, b':', time.hour, time.minute, time.second)
}

fn extension_length(x: OptionalNumber) -> OctetSize
    ensures { (result.0 ≡ length (extension_text (option_of x))) × (result.0 ≤ 10) }
{
    if x.present {
        return decimal_length(x.value);
    }
    OctetSize(1)
}

// Behind a space.
fn put_extension(out: &mut [u8], at: OctetSize, x: OptionalNumber) -> OctetSize
    requires { at.0 + 1 + length (extension_text (option_of x)) ≤ length out.old }
    ensures { Puts (32 ∷ extension_text (option_of x)) out.old out.new at.0 result.0 }
{
    let at = put_octet(out, at, b' ');
    if x.present {
        return put_decimal(out, at, x.value);
    }
    put_octet(out, at, b'-')
}

// The originator and the DTG.
fn put_origin(out: &mut [u8], at: OctetSize, k: &[u8]) -> OctetSize
    requires { (at.0 + length (address_text (address_of (key_in k.now).address)) + 18 ≤ length out.old) × (length k.now ≡ size_of_key) }
    ensures { Puts (address_text (address_of (key_in k.now).address) ++ 32 ∷ dtg_text (key_of (key_in k.now))) out.old out.new at.0 result.0 }
{
    let at = put_address(out, at, &k[in_key::ADDRESS..in_key::STAMP]);
    put_dtg(out, at, k)
}

fn load_extension(k: &[u8]) -> OptionalNumber
    requires { length k.now ≡ size_of_key }
    ensures { result ≡ (key_in k.now).stamp.extension }
{
    let stamp = &k[in_key::STAMP..in_key::END];
    load_optional(&stamp[in_stamp::EXTENSION..in_stamp::END])
}

fn put_key(out: &mut [u8], at: OctetSize, k: &[u8]) -> OctetSize
    requires { (at.0 + length (key_text (key_in k.now)) ≤ length out.old) × (length k.now ≡ size_of_key) }
    ensures { Puts (key_text (key_in k.now)) out.old out.new at.0 result.0 }
{
    let extension = load_extension(k);
    let at = put_origin(out, at, k);
    put_extension(out, at, extension)
}

fn letter_length(asked: bool) -> OctetSize
    ensures { (result.0 ≡ pick asked 1 0) × (result.0 ≤ 1) }
{
    if asked {
        return OctetSize(1);
    }
    OctetSize(0)
}

fn put_letter(out: &mut [u8], at: OctetSize, asked: bool, letter: u8) -> OctetSize
    requires { at.0 + pick asked 1 0 ≤ length out.old }
    ensures { Puts (pick asked (letter ∷ []) []) out.old out.new at.0 result.0 }
{
    if asked {
        return put_octet(out, at, letter);
    }
    at
}

fn letters_length(asked: Requests) -> OctetSize
    ensures { (result.0 ≡ length (asked_text (ask_of asked))) × (result.0 ≤ 3) }
{
    let machine = letter_length(asked.machine);
    let acknowledge = letter_length(asked.acknowledge);
    let reply = letter_length(asked.reply);
    OctetSize(machine.0 + acknowledge.0 + reply.0)
}

fn put_letters(out: &mut [u8], at: OctetSize, asked: Requests) -> OctetSize
    requires { at.0 + length (asked_text (ask_of asked)) ≤ length out.old }
    ensures { Puts (asked_text (ask_of asked)) out.old out.new at.0 result.0 }
{
    let at = put_letter(out, at, asked.machine, b'm');
    let at = put_letter(out, at, asked.acknowledge, b'o');
    put_letter(out, at, asked.reply, b'r')
}

fn key_line_length(k: &[u8], asked: Requests) -> OctetSize
    requires { length k.now ≡ size_of_key }
    ensures { (result.0 ≡ length (key_line (key_of (key_in k.now)) (ask_of asked))) × (result.0 ≤ 234) }
{
    let held = load_extension(k);
    let address = address_length(&k[in_key::ADDRESS..in_key::STAMP]);
    let extension = extension_length(held);
    let letters = letters_length(asked);
    OctetSize(address.0 + extension.0 + letters.0 + 27)
}

fn put_key_line(out: &mut [u8], at: OctetSize, k: &[u8], asked: Requests) -> OctetSize
    requires { (at.0 + length (key_line (key_of (key_in k.now)) (ask_of asked)) ≤ length out.old) × (length k.now ≡ size_of_key) }
    ensures { Puts (key_line (key_of (key_in k.now)) (ask_of asked)) out.old out.new at.0 result.0 }
{
    let at = put_key(out, at, k);
    let at = put_octets(out, at, b" asked ");
    let at = put_letters(out, at, asked);
    put_octet(out, at, b'\n')
}

pub fn row_length(x: &[u8]) -> OctetSize
    requires { length x.now ≡ size_of_row }
    ensures { (result.0 ≡ length (row_text (row_of (row_in x.now)))) × (result.0 ≤ 4010) }
{
    let asked = load_requests(&x[in_row::ASKED..in_row::UNUSED]);
    let count = load_word(&x[in_row::COUNT..in_row::END]);
    let key = key_line_length(&x[in_row::KEY..in_row::ASKED], asked);
    let recipients = recipients_length(asked, &x[in_row::RECIPIENTS..in_row::COUNT], count);
    OctetSize(key.0 + recipients.0)
}

pub fn put_row(out: &mut [u8], at: OctetSize, x: &[u8]) -> OctetSize
    requires { (at.0 + length (row_text (row_of (row_in x.now))) ≤ length out.old) × (length x.now ≡ size_of_row) }
    ensures { Puts (row_text (row_of (row_in x.now))) out.old out.new at.0 result.0 }
{
    let asked = load_requests(&x[in_row::ASKED..in_row::UNUSED]);
    let count = load_word(&x[in_row::COUNT..in_row::END]);
    let at = put_key_line(out, at, &x[in_row::KEY..in_row::ASKED], asked);
    put_recipients(out, at, asked, &x[in_row::RECIPIENTS..in_row::COUNT], count)
}

pub fn count_line_length(n: u32) -> OctetSize
    ensures { (result.0 ≡ length (count_line n)) × (result.0 ≤ 16) }
{
    let size = decimal_length(n);
    OctetSize(size.0 + 6)
}

pub fn put_count_line(out: &mut [u8], at: OctetSize, n: u32) -> OctetSize
    requires { at.0 + length (count_line n) ≤ length out.old }
    ensures { Puts (count_line n) out.old out.new at.0 result.0 }
{
    let at = put_octets(out, at, b"rows ");
    let at = put_decimal(out, at, n);
    put_octet(out, at, b'\n')
}
