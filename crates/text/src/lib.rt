// A text of 7-bit characters, read.
#![tactic(auto)]

ghost use Rattle.std.specs.Prelude.{◌≡◌, ◌≤◌, ◌==◌, if◌then◌else◌, length};
ghost use Rattle.codec.specs.declared.Fault.TheVariants.{BadText};
ghost use Rattle.bits.specs.Datagrams.{bits_in};
ghost use Rattle.codec.specs.Refusals.{answer_of};
ghost use Rattle.text.specs.Texts.{text, no_text};

use bits::{BitPlace, Datagram};
use codec::{Fault, FieldFault, Reading};
use number::{Range, read_number};

// The characters of a text and their count. The cells behind them are unused.
#[repr(C)]
#[derive(Clone, Copy)]
pub struct Text {
    pub chars: [u8; 64],
    pub len: u32,
}

// A character or the marker that ends a text.
pub const CHARACTER: Range = Range {
    width: 7,
    least: 0,
    most: 127,
};

pub const MARKER: u32 = 127;

pub fn no_text() -> Text
    ensures { result ≡ no_text }
{
    Text {
        chars: [0u8; 64],
        len: 0,
    }
}

// The text in the first cells; one without a character is refused at its first bit.
fn text_of(chars: [u8; 64], count: usize, at: BitPlace, end: BitPlace) -> Reading<Text>
    requires { count ≤ 64 }
    ensures { result ≡ (if count == 0 then Err (record { fault = BadText; place = at }) else Ok (record { chars = chars; len = count }, end)) }
{
    if count == 0 {
        return Err(FieldFault {
            fault: Fault::BadText,
            place: at,
        });
    }
    let len = count as u32;
    Ok((Text { chars, len }, end))
}

// A text of at most `most` characters, up to the marker; behind the last of so many there is none.
pub fn read_text(s: Datagram, at: BitPlace, most: usize) -> Reading<Text>
    requires { most ≤ 64 }
    ensures { answer_of result ≡ (text most).read (bits_in s.entry) at.0 }
{
    let mut chars = [0u8; 64];
    let mut place = at;
    for n in 0..most {
        let (v, next) = read_number(s, place, CHARACTER, Fault::Code)?;
        if v == MARKER {
            return text_of(chars, n, at, next);
        }
        chars[n] = (v % 128) as u8;
        place = next;
    }
    text_of(chars, most, at, place)
}
