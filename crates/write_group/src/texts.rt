// A text behind its presence bit.
ghost use Rattle.codec.specs.Writes.{Room, Writes};
ghost use Rattle.std.specs.Prelude.{◌≤◌, length, ◌≡◌};
ghost use Rattle.header.specs.Table.{optional_text};
ghost use Rattle.record_octets.specs.Record.{size_of_optional_text, optional_text_in};

use bits::BitPlace;
use cells::load_flag;
use leaves::numbers::write_mark;
use leaves::texts::write_text;
use record_octets::in_optional_text;

// Not by part::write_optional_part: how a text is laid out hangs on how long it may be, which is no property of its type.
pub fn write_optional_text(out: &mut [u8], at: BitPlace, most: usize, x: &[u8]) -> BitPlace
    requires { Room out.old at.0 ((optional_text most).size (optional_text_in x.now)) × (most ≤ 64) × (length x.now ≡ size_of_optional_text) }
    ensures { Writes (optional_text most) (optional_text_in x.now) out.old out.new at.0 result.0 }
{
    let next = write_mark(
        out,
        at,
        &x[in_optional_text::PRESENT..in_optional_text::TEXT],
    );
    if load_flag(&x[in_optional_text::PRESENT..in_optional_text::TEXT]) {
        return write_text(
            out,
            next,
            most,
            &x[in_optional_text::TEXT..in_optional_text::END],
        );
    }
    next
}
