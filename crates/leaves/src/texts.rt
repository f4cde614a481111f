// Texts.
ghost use Rattle.std.specs.Prelude.{◌≡◌, ◌+◌, ◌≤◌, length};
ghost use Rattle.codec.specs.Refusals.{check_no};
ghost use Rattle.codec.specs.Writes.{Placed, Room, Writes};
ghost use Rattle.text.specs.Texts.{text};
ghost use Rattle.record_octets.specs.Record.{size_of_text, text_in};

use bits::BitPlace;
use cells::load_word;
use codec::Fault;
use number::write_number;
use record_octets::in_text;
use text::{CHARACTER, MARKER};

// A text in the cells for its characters, with its count.
fn check_characters(most: usize, chars: &[u8], count: u32) -> Result<(), Fault>
    requires { (most ≤ 64) × (length chars.now ≡ 64) }
    ensures { check_no result ≡ (text most).check (record { chars = chars.entry.now; len = count }) }
{
    let len = count as usize;
    if most < len || len == 0 {
        return Err(Fault::BadText);
    }
    // the highest is judged at the end: a loop with one way out goes many characters at a time
    let mut highest: u8 = 0;
    for i in 0..len {
        highest = highest.max(chars[i]);
    }
    if 126 < highest {
        return Err(Fault::BadText);
    }
    Ok(())
}

pub fn check_text(most: usize, x: &[u8]) -> Result<(), Fault>
    requires { (most ≤ 64) × (length x.now ≡ size_of_text) }
    ensures { check_no result ≡ (text most).check (text_in x.now) }
{
    let count = load_word(&x[in_text::LEN..in_text::END]);
    check_characters(most, &x[in_text::CHARS..in_text::LEN], count)
}

pub fn end_text(at: BitPlace, most: usize, x: &[u8]) -> BitPlace
    requires { Placed at.0 ((text most).size (text_in x.now)) × (most ≤ 64) × (length x.now ≡ size_of_text) }
    ensures { result.0 ≡ at.0 + (text most).size (text_in x.now) }
{
    let len = load_word(&x[in_text::LEN..in_text::END]) as usize;
    if len < most {
        return BitPlace(at.0 + 7 * (len + 1));
    }
    BitPlace(at.0 + 7 * most)
}

// A text in the cells for its characters, with its count.
fn write_characters(out: &mut [u8], at: BitPlace, most: usize, chars: &[u8], count: u32) -> BitPlace
    requires { Room out.old at.0 ((text most).size (record { chars = chars.now; len = count })) × (most ≤ 64) × (length chars.now ≡ 64) }
    ensures { Writes (text most) (record { chars = chars.entry.now; len = count }) out.old out.new at.0 result.0 }
{
    let len = count as usize;
    let mut place = at;
    for i in 0..most {
        if len <= i {
            return write_number(out, place, CHARACTER, MARKER);
        }
        place = write_number(out, place, CHARACTER, chars[i] as u32);
    }
    place
}

pub fn write_text(out: &mut [u8], at: BitPlace, most: usize, x: &[u8]) -> BitPlace
    requires { Room out.old at.0 ((text most).size (text_in x.now)) × (most ≤ 64) × (length x.now ≡ size_of_text) }
    ensures { Writes (text most) (text_in x.now) out.old out.new at.0 result.0 }
{
    let count = load_word(&x[in_text::LEN..in_text::END]);
    write_characters(out, at, most, &x[in_text::CHARS..in_text::LEN], count)
}
