// Texts behind their presence bits.
ghost use Rattle.std.specs.Prelude.{◌≡◌, ◌≤◌, length};
ghost use Rattle.codec.specs.Refusals.{check_no};
ghost use Rattle.codec.specs.Codec.{present};
ghost use Rattle.text.specs.Texts.{text, no_text};
ghost use Rattle.header.specs.Table.{optional_text, unit_name};
ghost use Rattle.record_octets.specs.Record.{size_of_text, text_in, size_of_optional_text, optional_text_in};

use cells::load_flag;
use codec::Fault;
use flag::check_must;
use leaves::texts::check_text;
use record_octets::in_optional_text;

pub fn check_optional_text(most: usize, x: &[u8]) -> Result<(), Fault>
    requires { (most ≤ 64) × (length x.now ≡ size_of_optional_text) }
    ensures { check_no result ≡ (optional_text most).check (optional_text_in x.now) }
{
    if load_flag(&x[in_optional_text::PRESENT..in_optional_text::TEXT]) {
        return check_text(most, &x[in_optional_text::TEXT..in_optional_text::END]);
    }
    Ok(())
}

// The unit name of an address, whose presence has to be `due`.
pub fn check_unit_name(due: bool, x: &[u8]) -> Result<(), Fault>
    requires { length x.now ≡ size_of_optional_text }
    ensures { check_no result ≡ (unit_name due).check (optional_text_in x.now) }
{
    let present = load_flag(&x[in_optional_text::PRESENT..in_optional_text::TEXT]);
    check_must(due, Fault::Forms, present)?;
    check_present_name(present, &x[in_optional_text::TEXT..in_optional_text::END])
}

fn check_present_name(has: bool, t: &[u8]) -> Result<(), Fault>
    requires { length t.now ≡ size_of_text }
    ensures { check_no result ≡ (present no_text (text 64) has).check (text_in t.now) }
{
    if has {
        return check_text(64, t);
    }
    Ok(())
}
