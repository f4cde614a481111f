// A block's user message format, standard version, G4 and file name.
ghost use Rattle.std.specs.Prelude.{◌≡◌, length};
ghost use Rattle.codec.specs.Refusals.{check_no};
ghost use Rattle.header.specs.Table.{standard_version, format};
ghost use Rattle.record_octets.specs.Record.{size_of_optional_number, optional_number_in, size_of_format, format_in};

use crate::part::{Check, check_optional_part};
use crate::texts::check_optional_text;
use cells::load_flag;
use codec::Fault;
use header::Identity;
use header::editions::lacks_standard_version;
use header::layout::{FAD, FILE, MESSAGE_NUMBER, MESSAGE_SUBTYPE, STANDARD_VERSION, UMF};
use leaves::numbers::{check_optional, check_word};
use record_octets::{in_format, in_identity, in_optional_identity, in_optional_number};

// G4.
impl Check for Identity {
    fn check(x: &[u8]) -> Result<(), Fault> {
        check_word(FAD, Fault::Code, &x[in_identity::FAD..in_identity::NUMBER])?;
        check_word(
            MESSAGE_NUMBER,
            Fault::Code,
            &x[in_identity::NUMBER..in_identity::SUBTYPE],
        )?;
        check_optional(MESSAGE_SUBTYPE, &x[in_identity::SUBTYPE..in_identity::END])
    }
}

// The message standard version; where the version lacks it, a record that has it is refused.
fn check_standard_version(version: u32, x: &[u8]) -> Result<(), Fault>
    requires { length x.now ≡ size_of_optional_number }
    ensures { check_no result ≡ (standard_version version).check (optional_number_in x.now) }
{
    if lacks_standard_version(version) {
        if load_flag(&x[in_optional_number::PRESENT..in_optional_number::VALUE]) {
            return Err(Fault::Code);
        }
        return Ok(());
    }
    check_optional(STANDARD_VERSION, x)
}

pub fn check_format(version: u32, x: &[u8]) -> Result<(), Fault>
    requires { length x.now ≡ size_of_format }
    ensures { check_no result ≡ (format version).check (format_in x.now) }
{
    check_word(UMF, Fault::Code, &x[in_format::UMF..in_format::VERSION])?;
    check_standard_version(version, &x[in_format::VERSION..in_format::IDENTITY])?;
    check_optional_part::<Identity>(
        in_optional_identity::IDENTITY,
        &x[in_format::IDENTITY..in_format::FILE],
    )?;
    check_optional_text(FILE, &x[in_format::FILE..in_format::END])
}
