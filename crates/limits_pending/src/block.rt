// The message block that a line describes. What it does not have is a flag that is 0, the first octet of a field or
// group; the cells behind it stay as they were.
ghost use Rattle.std.specs.Prelude.{◌≡◌, length};
ghost use Rattle.record_octets.specs.Record.{size_of_block, size_of_codes, size_of_compliance, size_of_format, size_of_handling, size_of_identity, size_of_optional_identity, size_of_optional_requests, size_of_optional_response, size_of_optional_stamp, size_of_requests, size_of_response, size_of_times};

use crate::put::{flag, number, stamp};
use crate::words::Line;
use crate::words::Part::*;
use cells::store_word;
use optional::OptionalNumber;
use record_octets::{
    in_block, in_codes, in_compliance, in_format, in_handling, in_identity, in_optional_identity,
    in_optional_requests, in_optional_response, in_optional_stamp, in_requests, in_response,
    in_times,
};

// The FAD, message number 5 and no subtype.
fn identity(x: &mut [u8], fad: u32)
    requires { length x.old ≡ size_of_identity }
{
    store_word(&mut x[in_identity::FAD..in_identity::NUMBER], fad);
    store_word(&mut x[in_identity::NUMBER..in_identity::SUBTYPE], 5);
    flag(&mut x[in_identity::SUBTYPE..in_identity::END], false);
}

// G4.
fn optional_identity(x: &mut [u8], line: &Line)
    requires { length x.old ≡ size_of_optional_identity }
{
    flag(
        &mut x[in_optional_identity::PRESENT..in_optional_identity::IDENTITY],
        line.has(Identified),
    );
    identity(
        &mut x[in_optional_identity::IDENTITY..in_optional_identity::END],
        line.cell(Identified),
    );
}

fn format(x: &mut [u8], line: &Line)
    requires { length x.old ≡ size_of_format }
{
    store_word(
        &mut x[in_format::UMF..in_format::VERSION],
        line.cell(InFormat),
    );
    number(
        &mut x[in_format::VERSION..in_format::IDENTITY],
        line.optional(WithStandard),
    );
    optional_identity(&mut x[in_format::IDENTITY..in_format::FILE], line);
    flag(&mut x[in_format::FILE..in_format::END], false);
}

fn codes(x: &mut [u8])
    requires { length x.old ≡ size_of_codes }
{
    store_word(&mut x[in_codes::OPERATION..in_codes::RETRANSMIT], 0);
    store_word(&mut x[in_codes::RETRANSMIT..in_codes::PRECEDENCE], 0);
    store_word(&mut x[in_codes::PRECEDENCE..in_codes::CLASSIFICATION], 0);
    store_word(&mut x[in_codes::CLASSIFICATION..in_codes::END], 0);
}

// One of several blocks has a message size: 1, or 0 in a receipt.
fn size(line: &Line) -> OptionalNumber {
    OptionalNumber {
        present: line.cell(Blocks) != 1,
        value: if line.has(Code) { 0 } else { 1 },
    }
}

fn handling(x: &mut [u8], line: &Line)
    requires { length x.old ≡ size_of_handling }
{
    number(&mut x[in_handling::SIZE..in_handling::CODES], size(line));
    codes(&mut x[in_handling::CODES..in_handling::MARKING]);
    flag(&mut x[in_handling::MARKING..in_handling::END], false);
}

// A block that is no receipt has G5.
fn origin(x: &mut [u8], line: &Line)
    requires { length x.old ≡ size_of_optional_stamp }
{
    flag(
        &mut x[in_optional_stamp::PRESENT..in_optional_stamp::STAMP],
        !line.has(Code),
    );
    stamp(
        &mut x[in_optional_stamp::STAMP..in_optional_stamp::END],
        line.stamp(),
    );
}

// The requests are the three bits of a number, the machine's the lowest.
fn requests(x: &mut [u8], bits: u32)
    requires { length x.old ≡ size_of_requests }
{
    flag(
        &mut x[in_requests::MACHINE..in_requests::ACKNOWLEDGE],
        bits % 2 == 1,
    );
    flag(
        &mut x[in_requests::ACKNOWLEDGE..in_requests::REPLY],
        bits / 2 % 2 == 1,
    );
    flag(
        &mut x[in_requests::REPLY..in_requests::END],
        bits / 4 % 2 == 1,
    );
}

// G7.
fn optional_requests(x: &mut [u8], line: &Line)
    requires { length x.old ≡ size_of_optional_requests }
{
    flag(
        &mut x[in_optional_requests::PRESENT..in_optional_requests::REQUESTS],
        line.has(Asked),
    );
    requests(
        &mut x[in_optional_requests::REQUESTS..in_optional_requests::END],
        line.cell(Asked),
    );
}

fn times(x: &mut [u8], line: &Line)
    requires { length x.old ≡ size_of_times }
{
    origin(&mut x[in_times::ORIGIN..in_times::PERISH], line);
    flag(&mut x[in_times::PERISH..in_times::REQUESTS], false);
    optional_requests(&mut x[in_times::REQUESTS..in_times::END], line);
}

fn compliance(x: &mut [u8], code: u32)
    requires { length x.old ≡ size_of_compliance }
{
    store_word(&mut x[in_compliance::CODE..in_compliance::CANTCO], code);
    flag(&mut x[in_compliance::CANTCO..in_compliance::CANTPRO], false);
    flag(&mut x[in_compliance::CANTPRO..in_compliance::END], false);
}

fn response(x: &mut [u8], line: &Line)
    requires { length x.old ≡ size_of_response }
{
    stamp(
        &mut x[in_response::STAMP..in_response::COMPLIANCE],
        line.stamp(),
    );
    compliance(
        &mut x[in_response::COMPLIANCE..in_response::AMPLIFICATION],
        line.cell(Code),
    );
    flag(&mut x[in_response::AMPLIFICATION..in_response::END], false);
}

// G8.
fn optional_response(x: &mut [u8], line: &Line)
    requires { length x.old ≡ size_of_optional_response }
{
    flag(
        &mut x[in_optional_response::PRESENT..in_optional_response::RESPONSE],
        line.has(Code),
    );
    response(
        &mut x[in_optional_response::RESPONSE..in_optional_response::END],
        line,
    );
}

pub fn block(x: &mut [u8], line: &Line)
    requires { length x.old ≡ size_of_block }
{
    format(&mut x[in_block::FORMAT..in_block::HANDLING], line);
    handling(&mut x[in_block::HANDLING..in_block::TIMES], line);
    times(&mut x[in_block::TIMES..in_block::RESPONSE], line);
    optional_response(&mut x[in_block::RESPONSE..in_block::REFERENCES], line);
    flag(&mut x[in_block::REFERENCES..in_block::END], false);
}
