// A block's user message format, standard version, G4 and file name.
ghost use Rattle.codec.specs.Writes.{Room, Writes};
ghost use Rattle.header.specs.Table.{standard_version, format};
ghost use Rattle.record_octets.specs.Record.{size_of_optional_number, optional_number_in, size_of_format, format_in};
ghost use Rattle.std.specs.Prelude.{length, ◌≡◌};

use crate::part::{Write, write_optional_part};
use crate::texts::write_optional_text;
use bits::BitPlace;
use header::Identity;
use header::editions::lacks_standard_version;
use header::layout::{FAD, FILE, MESSAGE_NUMBER, MESSAGE_SUBTYPE, STANDARD_VERSION, UMF};
use leaves::numbers::{write_optional, write_word};
use record_octets::{in_format, in_identity, in_optional_identity};

// G4.
impl Write for Identity {
    fn write(out: &mut [u8], at: BitPlace, x: &[u8]) -> BitPlace {
        let at = write_word(out, at, FAD, &x[in_identity::FAD..in_identity::NUMBER]);
        let at = write_word(
            out,
            at,
            MESSAGE_NUMBER,
            &x[in_identity::NUMBER..in_identity::SUBTYPE],
        );
        write_optional(
            out,
            at,
            MESSAGE_SUBTYPE,
            &x[in_identity::SUBTYPE..in_identity::END],
        )
    }
}

// The message standard version, where the version has it.
fn write_standard_version(out: &mut [u8], at: BitPlace, version: u32, x: &[u8]) -> BitPlace
    requires { Room out.old at.0 ((standard_version version).size (optional_number_in x.now)) × (length x.now ≡ size_of_optional_number) }
    ensures { Writes (standard_version version) (optional_number_in x.now) out.old out.new at.0 result.0 }
{
    if lacks_standard_version(version) {
        return at;
    }
    write_optional(out, at, STANDARD_VERSION, x)
}

pub fn write_format(out: &mut [u8], at: BitPlace, version: u32, x: &[u8]) -> BitPlace
    requires { Room out.old at.0 ((format version).size (format_in x.now)) × (length x.now ≡ size_of_format) }
    ensures { Writes (format version) (format_in x.now) out.old out.new at.0 result.0 }
{
    let at = write_word(out, at, UMF, &x[in_format::UMF..in_format::VERSION]);
    let at = write_standard_version(
        out,
        at,
        version,
        &x[in_format::VERSION..in_format::IDENTITY],
    );
    let at = write_optional_part::<Identity>(
        out,
        at,
        in_optional_identity::IDENTITY,
        &x[in_format::IDENTITY..in_format::FILE],
    );
    write_optional_text(out, at, FILE, &x[in_format::FILE..in_format::END])
}
