// Clean copies of an address, a stamp and a key: what is used, and 0 in every octet that is not. The octets that a copy is put into may
// hold anything before.
#![tactic(auto)]

ghost use Rattle.std.specs.Prelude.{◌≡◌, true, ◌++◌, ◌-◌, ◌<◌, ◌≤◌, min, length, take};
ghost use Rattle.text.specs.Texts.{chars_of};
ghost use Rattle.header.specs.Table.{stamp};
ghost use Rattle.cells.specs.Cells.{part, zeros, word_in, word_octets};
ghost use Rattle.record_octets.specs.Record.{size_of_optional_number, optional_number_in, optional_number_octets, size_of_text, text_in, text_octets, size_of_optional_text, optional_text_in, optional_text_octets, size_of_address, address_in, address_octets, size_of_dtg, dtg_in, dtg_octets, size_of_stamp, stamp_in, stamp_octets};
ghost use Rattle.record_octets.specs.Typed.{TypedAddress, TypedDtg, TypedStamp};
ghost use Rattle.order.specs.Values.{name, option_of, address_of, key_of};
ghost use Rattle.table_octets.specs.Table.{size_of_key, key_octets};
ghost use Rattle.table_octets.specs.Typed.{TypedKey};
ghost use Rattle.table_octets.specs.Image.{text_image, number_image, address_image, key_image};

use cells::{clear, copy, load_word, store_mark, store_word};
use leaves::numbers::load_optional;
use record_octets::{
    in_address, in_date, in_dtg, in_optional_number, in_optional_text, in_stamp, in_text,
};
use table_octets::in_key;

// How many characters of a text are used: a count over 64 stands for all 64 cells.
fn used(len: u32) -> u32
    ensures { (result ≡ min len 64) × (result ≤ 64) }
{
    len.min(64)
}

fn put_characters(x: &mut [u8], s: &[u8], n: usize)
    requires { (length x.old ≡ 64) × (length s.now ≡ 64) × (n ≤ 64) }
    ensures { x.new ≡ take n s.now ++ zeros (64 - n) }
{
    clear(x);
    copy(x, 0, s, 0, n);
}

fn put_text(x: &mut [u8], t: &[u8])
    requires { (length x.old ≡ size_of_text) × (length t.now ≡ size_of_text) }
    ensures { x.new ≡ text_octets (text_image (chars_of (text_in t.now))) }
{
    let len = load_word(&t[in_text::LEN..in_text::END]);
    let n = used(len);
    put_characters(
        &mut x[in_text::CHARS..in_text::LEN],
        &t[in_text::CHARS..in_text::LEN],
        n as usize,
    );
    store_word(&mut x[in_text::LEN..in_text::END], n);
}

// A unit name, which is present.
fn put_name(x: &mut [u8], t: &[u8])
    requires { (length x.old ≡ size_of_optional_text) × (length t.now ≡ size_of_optional_text) }
    ensures { x.new ≡ optional_text_octets (address_image (name (chars_of (optional_text_in t.now).text))).name }
{
    store_mark(
        &mut x[in_optional_text::PRESENT..in_optional_text::TEXT],
        true,
    );
    put_text(
        &mut x[in_optional_text::TEXT..in_optional_text::END],
        &t[in_optional_text::TEXT..in_optional_text::END],
    );
}

// A number where it is present, and otherwise 0. Whether it is.
fn put_number(x: &mut [u8], n: &[u8]) -> bool
    requires { (length x.old ≡ size_of_optional_number) × (length n.now ≡ size_of_optional_number) }
    ensures { (result ≡ (optional_number_in n.now).present) × (x.new ≡ optional_number_octets (number_image (option_of (optional_number_in n.now)))) × ((optional_number_in n.now).value < 4294967296) }
{
    let v = load_optional(n);
    if v.present {
        store_mark(
            &mut x[in_optional_number::PRESENT..in_optional_number::VALUE],
            true,
        );
        store_word(
            &mut x[in_optional_number::VALUE..in_optional_number::END],
            v.value,
        );
        return true;
    }
    clear(x);
    false
}

// A URN where it is present, and otherwise the name: nothing of the other form.
pub fn put_address(x: &mut [u8], a: &[u8])
    requires { (length x.old ≡ size_of_address) × (length a.now ≡ size_of_address) }
    ensures { (x.new ≡ address_octets (address_image (address_of (address_in a.now)))) × TypedAddress (address_image (address_of (address_in a.now))) }
{
    let present = put_number(
        &mut x[in_address::URN..in_address::NAME],
        &a[in_address::URN..in_address::NAME],
    );
    if present {
        clear(&mut x[in_address::NAME..in_address::END]);
        return;
    }
    put_name(
        &mut x[in_address::NAME..in_address::END],
        &a[in_address::NAME..in_address::END],
    );
}

// The three numbers of a date or of a time.
fn put_three(x: &mut [u8], s: &[u8])
    requires { (length x.old ≡ 12) × (length s.now ≡ 12) }
    ensures { (x.new ≡ word_octets (word_in (part 0 4 s.now)) ++ word_octets (word_in (part 4 4 s.now)) ++ word_octets (word_in (part 8 4 s.now))) × (word_in (part 0 4 s.now) < 4294967296) × (word_in (part 4 4 s.now) < 4294967296) × (word_in (part 8 4 s.now) < 4294967296) }
{
    let first = load_word(&s[in_date::YEAR..in_date::MONTH]);
    let second = load_word(&s[in_date::MONTH..in_date::DAY]);
    let third = load_word(&s[in_date::DAY..in_date::END]);
    store_word(&mut x[in_date::YEAR..in_date::MONTH], first);
    store_word(&mut x[in_date::MONTH..in_date::DAY], second);
    store_word(&mut x[in_date::DAY..in_date::END], third);
}

fn put_dtg(x: &mut [u8], s: &[u8])
    requires { (length x.old ≡ size_of_dtg) × (length s.now ≡ size_of_dtg) }
    ensures { (x.new ≡ dtg_octets (dtg_in s.now)) × TypedDtg (dtg_in s.now) }
{
    put_three(
        &mut x[in_dtg::DATE..in_dtg::TIME],
        &s[in_dtg::DATE..in_dtg::TIME],
    );
    put_three(
        &mut x[in_dtg::TIME..in_dtg::END],
        &s[in_dtg::TIME..in_dtg::END],
    );
}

// A DTG's six numbers, and the extension where it is present.
pub fn put_stamp(x: &mut [u8], s: &[u8])
    requires { (length x.old ≡ size_of_stamp) × (length s.now ≡ size_of_stamp) }
    ensures { (x.new ≡ stamp_octets (stamp.norm (stamp_in s.now))) × TypedStamp (stamp.norm (stamp_in s.now)) }
{
    put_dtg(
        &mut x[in_stamp::DTG..in_stamp::EXTENSION],
        &s[in_stamp::DTG..in_stamp::EXTENSION],
    );
    put_number(
        &mut x[in_stamp::EXTENSION..in_stamp::END],
        &s[in_stamp::EXTENSION..in_stamp::END],
    );
}

// The key of a message, from its originator's address and its stamp.
pub fn put_key(k: &mut [u8], a: &[u8], s: &[u8])
    requires { (length k.old ≡ size_of_key) × (length a.now ≡ size_of_address) × (length s.now ≡ size_of_stamp) }
    ensures { (k.new ≡ key_octets (key_image (key_of (record { address = address_in a.now; stamp = stamp_in s.now })))) × TypedKey (key_image (key_of (record { address = address_in a.now; stamp = stamp_in s.now }))) }
{
    put_address(&mut k[in_key::ADDRESS..in_key::STAMP], a);
    put_stamp(&mut k[in_key::STAMP..in_key::END], s);
}
