// A block's message size, codes and control marking.
ghost use Rattle.std.specs.Prelude.{◌≡◌, ◌≤◌, length};
ghost use Rattle.bits.specs.Datagrams.{bits_in};
ghost use Rattle.cells.specs.Cells.{zeros};
ghost use Rattle.header.specs.Table.{codes, handling};
ghost use Rattle.into.specs.Into.{Into};
ghost use Rattle.record_octets.specs.Record.{size_of_codes, codes_octets, size_of_handling, handling_octets};
ghost use Rattle.record_octets.specs.Typed.{TypedCodes, TypedHandling};

use bits::{BitPlace, Datagram};
use codec::{Fault, Step};
use header::layout::{CLASSIFICATION, MARKING, MESSAGE_SIZE, OPERATION, PRECEDENCE, RETRANSMIT};
use read_leaves::numbers::{read_optional, read_word};
use read_leaves::texts::read_optional_text;
use record_octets::{in_codes, in_handling};

pub fn read_codes(s: Datagram, at: BitPlace, x: &mut [u8]) -> Step
    requires { (x.old ≡ zeros size_of_codes) × (length x.old ≡ size_of_codes) }
    ensures { Into codes codes_octets TypedCodes (bits_in s.entry) at.0 result x.new }
{
    let at = read_word(
        s,
        at,
        OPERATION,
        Fault::Code,
        &mut x[in_codes::OPERATION..in_codes::RETRANSMIT],
    )?;
    let at = read_word(
        s,
        at,
        RETRANSMIT,
        Fault::Code,
        &mut x[in_codes::RETRANSMIT..in_codes::PRECEDENCE],
    )?;
    let at = read_word(
        s,
        at,
        PRECEDENCE,
        Fault::Code,
        &mut x[in_codes::PRECEDENCE..in_codes::CLASSIFICATION],
    )?;
    read_word(
        s,
        at,
        CLASSIFICATION,
        Fault::Code,
        &mut x[in_codes::CLASSIFICATION..in_codes::END],
    )
}

pub fn read_handling(s: Datagram, at: BitPlace, x: &mut [u8]) -> Step
    requires { (x.old ≡ zeros size_of_handling) × (length x.old ≡ size_of_handling) }
    ensures { Into handling handling_octets TypedHandling (bits_in s.entry) at.0 result x.new }
{
    let at = read_optional(
        s,
        at,
        MESSAGE_SIZE,
        &mut x[in_handling::SIZE..in_handling::CODES],
    )?;
    let at = read_codes(s, at, &mut x[in_handling::CODES..in_handling::MARKING])?;
    read_optional_text(
        s,
        at,
        MARKING,
        &mut x[in_handling::MARKING..in_handling::END],
    )
}
