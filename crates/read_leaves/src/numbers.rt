// Numbers, and numbers that may be absent.
ghost use Rattle.std.specs.Prelude.{◌≡◌, ◌<◌, ◌≤◌, length};
ghost use Rattle.bits.specs.Datagrams.{bits_in};
ghost use Rattle.codec.specs.Codec.{flag};
ghost use Rattle.codec.specs.Refusals.{fault_no};
ghost use Rattle.cells.specs.Cells.{flag_octets, word_octets};
ghost use Rattle.into.specs.Into.{Into};
ghost use Rattle.number.specs.Numbers.{number_of};
ghost use Rattle.optional.specs.Optionals.{optional_number};
ghost use Rattle.record_octets.specs.Record.{size_of_optional_number, optional_number_octets};
ghost use Rattle.record_octets.specs.Typed.{TypedOptionalNumber};

use bits::{BitPlace, Datagram};
use cells::{store_flag, store_mark, store_word};
use codec::{Fault, Step};
use flag::read_flag;
use number::{Range, read_number};
use optional::OptionalNumber;
use record_octets::in_optional_number;

pub fn read_word(s: Datagram, at: BitPlace, f: Range, fault: Fault, x: &mut [u8]) -> Step
    requires { (f.width ≤ 24) × (length x.old ≡ 4) }
    ensures { Into (number_of f (fault_no fault)) word_octets (λ v. v < 4294967296) (bits_in s.entry) at.0 result x.new }
{
    let (v, next) = read_number(s, at, f, fault)?;
    store_word(x, v);
    Ok(next)
}

pub fn store_optional(x: &mut [u8], n: OptionalNumber)
    requires { length x.old ≡ size_of_optional_number }
    ensures octets { x.new ≡ optional_number_octets n }
    ensures typed { TypedOptionalNumber n }
{
    store_mark(
        &mut x[in_optional_number::PRESENT..in_optional_number::VALUE],
        n.present,
    );
    store_word(
        &mut x[in_optional_number::VALUE..in_optional_number::END],
        n.value,
    );
}

pub fn read_optional(s: Datagram, at: BitPlace, f: Range, x: &mut [u8]) -> Step
    requires { (f.width ≤ 24) × (length x.old ≡ size_of_optional_number) }
    ensures { Into (optional_number f) optional_number_octets TypedOptionalNumber (bits_in s.entry) at.0 result x.new }
{
    let (n, next) = optional::read_optional(s, at, f)?;
    store_optional(x, n);
    Ok(next)
}

// A flag of one octet.
pub fn read_mark(s: Datagram, at: BitPlace, x: &mut [u8]) -> Step
    requires { length x.old ≡ 1 }
    ensures { Into flag flag_octets (λ v. Unit {0}) (bits_in s.entry) at.0 result x.new }
{
    let (b, next) = read_flag(s, at)?;
    store_flag(x, b);
    Ok(next)
}
