// A block's user message format, standard version, G4 and file name.
ghost use Rattle.std.specs.Prelude.{◌≡◌, ◌+◌, length};
ghost use Rattle.codec.specs.Writes.{Placed};
ghost use Rattle.header.specs.Table.{standard_version, format};
ghost use Rattle.record_octets.specs.Record.{size_of_optional_number, optional_number_in, size_of_format, format_in};

use crate::part::{End, end_optional_part};
use crate::texts::end_optional_text;
use bits::BitPlace;
use header::Identity;
use header::editions::lacks_standard_version;
use header::layout::{FAD, FILE, MESSAGE_NUMBER, MESSAGE_SUBTYPE, STANDARD_VERSION, UMF};
use leaves::numbers::end_optional;
use number::end_number;
use record_octets::{in_format, in_identity, in_optional_identity};

// G4.
impl End for Identity {
    fn end(at: BitPlace, x: &[u8]) -> BitPlace {
        let at = end_number(at, FAD);
        let at = end_number(at, MESSAGE_NUMBER);
        end_optional(
            at,
            MESSAGE_SUBTYPE,
            &x[in_identity::SUBTYPE..in_identity::END],
        )
    }
}

// The message standard version, where the version has it.
fn end_standard_version(at: BitPlace, version: u32, x: &[u8]) -> BitPlace
    requires { Placed at.0 ((standard_version version).size (optional_number_in x.now)) × (length x.now ≡ size_of_optional_number) }
    ensures { result.0 ≡ at.0 + (standard_version version).size (optional_number_in x.now) }
{
    if lacks_standard_version(version) {
        return at;
    }
    end_optional(at, STANDARD_VERSION, x)
}

pub fn end_format(at: BitPlace, version: u32, x: &[u8]) -> BitPlace
    requires { Placed at.0 ((format version).size (format_in x.now)) × (length x.now ≡ size_of_format) }
    ensures { result.0 ≡ at.0 + (format version).size (format_in x.now) }
{
    let at = end_number(at, UMF);
    let at = end_standard_version(at, version, &x[in_format::VERSION..in_format::IDENTITY]);
    let at = end_optional_part::<Identity>(
        at,
        in_optional_identity::IDENTITY,
        &x[in_format::IDENTITY..in_format::FILE],
    );
    end_optional_text(at, FILE, &x[in_format::FILE..in_format::END])
}
