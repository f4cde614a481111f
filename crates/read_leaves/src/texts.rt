// Texts.
ghost use Rattle.std.specs.Prelude.{◌≡◌, ◌≤◌, length};
ghost use Rattle.bits.specs.Datagrams.{bits_in};
ghost use Rattle.into.specs.Into.{Into};
ghost use Rattle.text.specs.Texts.{text};
ghost use Rattle.header.specs.Table.{optional_text};
ghost use Rattle.cells.specs.Cells.{zeros};
ghost use Rattle.record_octets.specs.Record.{size_of_text, text_octets, size_of_optional_text, optional_text_octets};
ghost use Rattle.record_octets.specs.Typed.{TypedText, TypedOptionalText};

use bits::{BitPlace, Datagram};
use cells::{store_chars, store_mark, store_word};
use codec::Step;
use flag::read_flag;
use record_octets::{in_optional_text, in_text};
use text::Text;

fn store_text(x: &mut [u8], t: Text)
    requires { length x.old ≡ size_of_text }
    ensures octets { x.new ≡ text_octets t }
    ensures typed { TypedText t }
{
    store_chars(&mut x[in_text::CHARS..in_text::LEN], t.chars);
    store_word(&mut x[in_text::LEN..in_text::END], t.len);
}

// A text of at most `most` characters.
pub fn read_text(s: Datagram, at: BitPlace, most: usize, x: &mut [u8]) -> Step
    requires { (most ≤ 64) × (length x.old ≡ size_of_text) }
    ensures { Into (text most) text_octets TypedText (bits_in s.entry) at.0 result x.new }
{
    let (t, next) = text::read_text(s, at, most)?;
    store_text(x, t);
    Ok(next)
}

// A text of at most `most` characters behind its presence bit.
pub fn read_optional_text(s: Datagram, at: BitPlace, most: usize, x: &mut [u8]) -> Step
    requires { (x.old ≡ zeros size_of_optional_text) × (length x.old ≡ size_of_optional_text) × (most ≤ 64) }
    ensures { Into (optional_text most) optional_text_octets TypedOptionalText (bits_in s.entry) at.0 result x.new }
{
    let (present, at) = read_flag(s, at)?;
    if present {
        store_mark(
            &mut x[in_optional_text::PRESENT..in_optional_text::TEXT],
            present,
        );
        return read_text(
            s,
            at,
            most,
            &mut x[in_optional_text::TEXT..in_optional_text::END],
        );
    }
    Ok(at)
}
