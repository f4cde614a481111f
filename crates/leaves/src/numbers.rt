// Numbers, presence flags, and numbers that may be absent.
ghost use Rattle.std.specs.Prelude.{◌≡◌, ◌+◌, ◌≤◌, length};
ghost use Rattle.codec.specs.Codec.{flag};
ghost use Rattle.codec.specs.Refusals.{check_no, fault_no};
ghost use Rattle.codec.specs.Writes.{Placed, Room, Writes};
ghost use Rattle.number.specs.Numbers.{number_of};
ghost use Rattle.optional.specs.Optionals.{optional_number};
ghost use Rattle.cells.specs.Cells.{word_in, flag_in};
ghost use Rattle.record_octets.specs.Record.{size_of_optional_number, optional_number_in};

use bits::BitPlace;
use cells::{load_flag, load_word};
use codec::Fault;
use flag::write_flag;
use number::{Range, check_number, write_number};
use optional::OptionalNumber;
use record_octets::in_optional_number;

pub fn check_word(f: Range, fault: Fault, x: &[u8]) -> Result<(), Fault>
    requires { length x.now ≡ 4 }
    ensures { check_no result ≡ (number_of f (fault_no fault)).check (word_in x.now) }
{
    check_number(f, fault, load_word(x))
}

pub fn write_word(out: &mut [u8], at: BitPlace, f: Range, x: &[u8]) -> BitPlace
    requires { Room out.old at.0 f.width × (f.width ≤ 24) × (length x.now ≡ 4) }
    ensures { Writes (number_of f 3) (word_in x.now) out.old out.new at.0 result.0 }
{
    write_number(out, at, f, load_word(x))
}

// The presence bit of a flag.
pub fn write_mark(out: &mut [u8], at: BitPlace, x: &[u8]) -> BitPlace
    requires { Room out.old at.0 1 × (1 ≤ length x.now) }
    ensures { Writes flag (flag_in x.now) out.old out.new at.0 result.0 }
{
    write_flag(out, at, load_flag(x))
}

pub fn load_optional(x: &[u8]) -> OptionalNumber
    requires { length x.now ≡ size_of_optional_number }
    ensures { result ≡ optional_number_in x.now }
{
    let present = load_flag(&x[in_optional_number::PRESENT..in_optional_number::VALUE]);
    let value = load_word(&x[in_optional_number::VALUE..in_optional_number::END]);
    OptionalNumber { present, value }
}

pub fn check_optional(f: Range, x: &[u8]) -> Result<(), Fault>
    requires { length x.now ≡ size_of_optional_number }
    ensures { check_no result ≡ (optional_number f).check (optional_number_in x.now) }
{
    optional::check_optional(f, load_optional(x))
}

pub fn end_optional(at: BitPlace, f: Range, x: &[u8]) -> BitPlace
    requires { Placed at.0 ((optional_number f).size (optional_number_in x.now)) × (length x.now ≡ size_of_optional_number) }
    ensures { result.0 ≡ at.0 + (optional_number f).size (optional_number_in x.now) }
{
    optional::end_optional(at, f, load_optional(x))
}

pub fn write_optional(out: &mut [u8], at: BitPlace, f: Range, x: &[u8]) -> BitPlace
    requires { Room out.old at.0 ((optional_number f).size (optional_number_in x.now)) × (f.width ≤ 24) × (length x.now ≡ size_of_optional_number) }
    ensures { Writes (optional_number f) (optional_number_in x.now) out.old out.new at.0 result.0 }
{
    optional::write_optional(out, at, f, load_optional(x))
}
