// A block's user message format, standard version, G4 and file name.
ghost use Rattle.std.specs.Prelude.{◌≡◌, ◌≤◌, length};
ghost use Rattle.bits.specs.Datagrams.{bits_in};
ghost use Rattle.cells.specs.Cells.{zeros};
ghost use Rattle.header.specs.Table.{identity, optional_identity, standard_version, format};
ghost use Rattle.into.specs.Into.{Into};
ghost use Rattle.record_octets.specs.Record.{size_of_optional_number, optional_number_octets, size_of_identity, identity_octets, size_of_optional_identity, optional_identity_octets, size_of_format, format_octets};
ghost use Rattle.record_octets.specs.Typed.{TypedOptionalNumber, TypedIdentity, TypedOptionalIdentity, TypedFormat};

use bits::{BitPlace, Datagram};
use cells::store_mark;
use codec::{Fault, Step};
use flag::read_flag;
use header::editions::lacks_standard_version;
use header::layout::{FAD, FILE, MESSAGE_NUMBER, MESSAGE_SUBTYPE, STANDARD_VERSION, UMF};
use read_leaves::numbers::{read_optional, read_word};
use read_leaves::texts::read_optional_text;
use record_octets::{in_format, in_identity, in_optional_identity};

// G4.
pub fn read_identity(s: Datagram, at: BitPlace, x: &mut [u8]) -> Step
    requires { (x.old ≡ zeros size_of_identity) × (length x.old ≡ size_of_identity) }
    ensures { Into identity identity_octets TypedIdentity (bits_in s.entry) at.0 result x.new }
{
    let at = read_word(
        s,
        at,
        FAD,
        Fault::Code,
        &mut x[in_identity::FAD..in_identity::NUMBER],
    )?;
    let at = read_word(
        s,
        at,
        MESSAGE_NUMBER,
        Fault::Code,
        &mut x[in_identity::NUMBER..in_identity::SUBTYPE],
    )?;
    read_optional(
        s,
        at,
        MESSAGE_SUBTYPE,
        &mut x[in_identity::SUBTYPE..in_identity::END],
    )
}

pub fn read_optional_identity(s: Datagram, at: BitPlace, x: &mut [u8]) -> Step
    requires { (x.old ≡ zeros size_of_optional_identity) × (length x.old ≡ size_of_optional_identity) }
    ensures { Into optional_identity optional_identity_octets TypedOptionalIdentity (bits_in s.entry) at.0 result x.new }
{
    let (present, at) = read_flag(s, at)?;
    if present {
        store_mark(
            &mut x[in_optional_identity::PRESENT..in_optional_identity::IDENTITY],
            present,
        );
        return read_identity(
            s,
            at,
            &mut x[in_optional_identity::IDENTITY..in_optional_identity::END],
        );
    }
    Ok(at)
}

// The message standard version, where the version has it.
fn read_standard_version(s: Datagram, at: BitPlace, version: u32, x: &mut [u8]) -> Step
    requires { (x.old ≡ zeros size_of_optional_number) × (length x.old ≡ size_of_optional_number) }
    ensures { Into (standard_version version) optional_number_octets TypedOptionalNumber (bits_in s.entry) at.0 result x.new }
{
    let lacking = lacks_standard_version(version);
    if lacking {
        return Ok(at);
    }
    read_optional(s, at, STANDARD_VERSION, x)
}

pub fn read_format(s: Datagram, at: BitPlace, version: u32, x: &mut [u8]) -> Step
    requires { (x.old ≡ zeros size_of_format) × (length x.old ≡ size_of_format) }
    ensures { Into (format version) format_octets TypedFormat (bits_in s.entry) at.0 result x.new }
{
    let at = read_word(
        s,
        at,
        UMF,
        Fault::Code,
        &mut x[in_format::UMF..in_format::VERSION],
    )?;
    let at = read_standard_version(
        s,
        at,
        version,
        &mut x[in_format::VERSION..in_format::IDENTITY],
    )?;
    let at = read_optional_identity(s, at, &mut x[in_format::IDENTITY..in_format::FILE])?;
    read_optional_text(s, at, FILE, &mut x[in_format::FILE..in_format::END])
}
