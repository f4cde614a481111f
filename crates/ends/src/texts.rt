// A text behind its presence bit.
ghost use Rattle.std.specs.Prelude.{◌≡◌, ◌+◌, ◌≤◌, length};
ghost use Rattle.codec.specs.Writes.{Placed};
ghost use Rattle.header.specs.Table.{optional_text};
ghost use Rattle.record_octets.specs.Record.{size_of_optional_text, optional_text_in};

use bits::BitPlace;
use cells::load_flag;
use flag::end_flag;
use leaves::texts::end_text;
use record_octets::in_optional_text;

pub fn end_optional_text(at: BitPlace, most: usize, x: &[u8]) -> BitPlace
    requires { Placed at.0 ((optional_text most).size (optional_text_in x.now)) × (most ≤ 64) × (length x.now ≡ size_of_optional_text) }
    ensures { result.0 ≡ at.0 + (optional_text most).size (optional_text_in x.now) }
{
    let behind = end_flag(at);
    if load_flag(&x[in_optional_text::PRESENT..in_optional_text::TEXT]) {
        return end_text(
            behind,
            most,
            &x[in_optional_text::TEXT..in_optional_text::END],
        );
    }
    behind
}
