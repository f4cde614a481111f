// Addresses: URNs in decimal, names in double quotes.
ghost use Rattle.std.specs.Prelude.{◌≡◌, ◌||◌, [], ◌∷◌, ◌++◌, ◌+◌, ◌≤◌, ◌<◌, min, length, leb, eqb};
ghost use Rattle.text.specs.Texts.{chars_of};
ghost use Rattle.order.specs.Values.{address_of};
ghost use Rattle.record_octets.specs.Record.{size_of_text, text_in, size_of_address, address_in};
ghost use Rattle.row_text.specs.Text.{hex_digit, escaped, characters, address_text};
ghost use Rattle.row_text.specs.Puts.{Puts};

use crate::digits::{decimal_length, put_decimal, put_octet};
use bits::OctetSize;
use cells::load_word;
use leaves::numbers::load_optional;
use record_octets::{in_address, in_optional_text, in_text};

// How many cells of an array are used: a count beyond them stands for all.
pub fn used(count: u32, cells: usize) -> usize
    ensures { result ≡ min count cells }
{
    (count as usize).min(cells)
}

// Controls, and the two characters that would end a name or begin an escape.
fn needs_escape(c: u8) -> bool
    ensures { result ≡ leb c 31 || eqb c 34 || eqb c 92 }
{
    c <= 31 || c == b'"' || c == b'\\'
}

fn put_hex_digit(out: &mut [u8], at: OctetSize, n: u8) -> OctetSize
    requires { (at.0 + 1 ≤ length out.old) × (n < 16) }
    ensures { Puts (hex_digit n ∷ []) out.old out.new at.0 result.0 }
{
    if n <= 9 {
        return put_octet(out, at, b'0' + n);
    }
    put_octet(out, at, 87 + n)
}

fn escaped_length(c: u8) -> OctetSize
    ensures { (result.0 ≡ length (escaped c)) × (result.0 ≤ 3) }
{
    if needs_escape(c) {
        return OctetSize(3);
    }
    OctetSize(1)
}

fn put_escaped(out: &mut [u8], at: OctetSize, c: u8) -> OctetSize
    requires { at.0 + length (escaped c) ≤ length out.old }
    ensures { Puts (escaped c) out.old out.new at.0 result.0 }
{
    if needs_escape(c) {
        let at = put_octet(out, at, b'\\');
        let at = put_hex_digit(out, at, c / 16);
        return put_hex_digit(out, at, c % 16);
    }
    put_octet(out, at, c)
}

// The characters of a text.
fn characters_length(x: &[u8]) -> OctetSize
    requires { length x.now ≡ size_of_text }
    ensures { (result.0 ≡ length (characters (chars_of (text_in x.now)))) × (result.0 ≤ 192) }
{
    let chars = &x[in_text::CHARS..in_text::LEN];
    let count = load_word(&x[in_text::LEN..in_text::END]);
    let n = used(count, 64);
    let mut size = OctetSize(0);
    for &c in &chars[..n] {
        size = OctetSize(size.0 + escaped_length(c).0);
    }
    size
}

fn put_characters(out: &mut [u8], at: OctetSize, x: &[u8]) -> OctetSize
    requires { (at.0 + length (characters (chars_of (text_in x.now))) ≤ length out.old) × (length x.now ≡ size_of_text) }
    ensures { Puts (characters (chars_of (text_in x.now))) out.old out.new at.0 result.0 }
{
    let chars = &x[in_text::CHARS..in_text::LEN];
    let count = load_word(&x[in_text::LEN..in_text::END]);
    let n = used(count, 64);
    let mut place = at;
    for &c in &chars[..n] {
        place = put_escaped(out, place, c);
    }
    place
}

fn put_name(out: &mut [u8], at: OctetSize, x: &[u8]) -> OctetSize
    requires { (at.0 + length (characters (chars_of (text_in x.now))) + 2 ≤ length out.old) × (length x.now ≡ size_of_text) }
    ensures { Puts (34 ∷ characters (chars_of (text_in x.now)) ++ 34 ∷ []) out.old out.new at.0 result.0 }
{
    let at = put_octet(out, at, b'"');
    let at = put_characters(out, at, x);
    put_octet(out, at, b'"')
}

pub fn address_length(x: &[u8]) -> OctetSize
    requires { length x.now ≡ size_of_address }
    ensures { (result.0 ≡ length (address_text (address_of (address_in x.now)))) × (result.0 ≤ 194) }
{
    let urn = load_optional(&x[in_address::URN..in_address::NAME]);
    if urn.present {
        return decimal_length(urn.value);
    }
    let name = &x[in_address::NAME..in_address::END];
    let size = characters_length(&name[in_optional_text::TEXT..in_optional_text::END]);
    OctetSize(size.0 + 2)
}

pub fn put_address(out: &mut [u8], at: OctetSize, x: &[u8]) -> OctetSize
    requires { (at.0 + length (address_text (address_of (address_in x.now))) ≤ length out.old) × (length x.now ≡ size_of_address) }
    ensures { Puts (address_text (address_of (address_in x.now))) out.old out.new at.0 result.0 }
{
    let urn = load_optional(&x[in_address::URN..in_address::NAME]);
    if urn.present {
        return put_decimal(out, at, urn.value);
    }
    let name = &x[in_address::NAME..in_address::END];
    put_name(
        out,
        at,
        &name[in_optional_text::TEXT..in_optional_text::END],
    )
}
