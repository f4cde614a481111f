// A message block of a plan, group by group, each put into the octets that are its own.
ghost use Rattle.std.specs.Prelude.{◌≡◌, length};
ghost use Rattle.record_octets.specs.Record.{size_of_block, size_of_codes, size_of_compliance, size_of_format, size_of_handling, size_of_identity, size_of_optional_dtg, size_of_optional_identity, size_of_optional_references, size_of_optional_requests, size_of_optional_response, size_of_optional_stamp, size_of_reference, size_of_references, size_of_references_list, size_of_requests, size_of_response, size_of_times};

use crate::parts::*;
use crate::plan::Key::*;
use crate::plan::Plan;
use cells::store_word;
use record_octets::{
    in_block, in_codes, in_compliance, in_format, in_handling, in_identity, in_optional_dtg,
    in_optional_identity, in_optional_references, in_optional_requests, in_optional_response,
    in_optional_stamp, in_reference, in_references, in_requests, in_response, in_times,
};

fn identity(x: &mut [u8], p: &Plan)
    requires { length x.old ≡ size_of_identity }
{
    store_word(&mut x[in_identity::FAD..in_identity::NUMBER], p.cell(Fad));
    store_word(
        &mut x[in_identity::NUMBER..in_identity::SUBTYPE],
        p.cell(MessageNumber),
    );
    optional(
        &mut x[in_identity::SUBTYPE..in_identity::END],
        p.get(Subtype),
        p.mark(),
    );
}

// G4.
fn optional_identity(x: &mut [u8], p: &Plan)
    requires { length x.old ≡ size_of_optional_identity }
{
    flag(
        &mut x[in_optional_identity::PRESENT..in_optional_identity::IDENTITY],
        p.has(Fad),
        p.mark(),
    );
    identity(
        &mut x[in_optional_identity::IDENTITY..in_optional_identity::END],
        p,
    );
}

fn format(x: &mut [u8], p: &Plan)
    requires { length x.old ≡ size_of_format }
{
    store_word(&mut x[in_format::UMF..in_format::VERSION], p.cell(Umf));
    optional(
        &mut x[in_format::VERSION..in_format::IDENTITY],
        p.get(Standard),
        p.mark(),
    );
    optional_identity(&mut x[in_format::IDENTITY..in_format::FILE], p);
    optional_text(
        &mut x[in_format::FILE..in_format::END],
        CHARACTERS,
        p.get(FileName),
        p.mark(),
    );
}

fn codes(x: &mut [u8], p: &Plan)
    requires { length x.old ≡ size_of_codes }
{
    store_word(
        &mut x[in_codes::OPERATION..in_codes::RETRANSMIT],
        p.cell(Operation),
    );
    store_word(
        &mut x[in_codes::RETRANSMIT..in_codes::PRECEDENCE],
        p.cell(Retransmit),
    );
    store_word(
        &mut x[in_codes::PRECEDENCE..in_codes::CLASSIFICATION],
        p.cell(Precedence),
    );
    store_word(
        &mut x[in_codes::CLASSIFICATION..in_codes::END],
        p.cell(Classification),
    );
}

fn handling(x: &mut [u8], p: &Plan)
    requires { length x.old ≡ size_of_handling }
{
    optional(
        &mut x[in_handling::SIZE..in_handling::CODES],
        p.get(Size),
        p.mark(),
    );
    codes(&mut x[in_handling::CODES..in_handling::MARKING], p);
    optional_text(
        &mut x[in_handling::MARKING..in_handling::END],
        CHARACTERS,
        p.get(Marking),
        p.mark(),
    );
}

// G5.
fn origin(x: &mut [u8], p: &Plan)
    requires { length x.old ≡ size_of_optional_stamp }
{
    flag(
        &mut x[in_optional_stamp::PRESENT..in_optional_stamp::STAMP],
        p.is_set(G5),
        p.mark(),
    );
    stamp(&mut x[in_optional_stamp::STAMP..in_optional_stamp::END], p);
}

// G6.
fn perish(x: &mut [u8], p: &Plan)
    requires { length x.old ≡ size_of_optional_dtg }
{
    flag(
        &mut x[in_optional_dtg::PRESENT..in_optional_dtg::DTG],
        p.is_set(G6),
        p.mark(),
    );
    dtg(&mut x[in_optional_dtg::DTG..in_optional_dtg::END], p);
}

// The requests are the three bits of a number, the machine's the lowest.
fn requests(x: &mut [u8], bits: u32, mark: u8)
    requires { length x.old ≡ size_of_requests }
{
    flag(
        &mut x[in_requests::MACHINE..in_requests::ACKNOWLEDGE],
        bits % 2 == 1,
        mark,
    );
    flag(
        &mut x[in_requests::ACKNOWLEDGE..in_requests::REPLY],
        bits / 2 % 2 == 1,
        mark,
    );
    flag(
        &mut x[in_requests::REPLY..in_requests::END],
        bits / 4 % 2 == 1,
        mark,
    );
}

// G7.
fn optional_requests(x: &mut [u8], p: &Plan)
    requires { length x.old ≡ size_of_optional_requests }
{
    flag(
        &mut x[in_optional_requests::PRESENT..in_optional_requests::REQUESTS],
        p.has(Requests),
        p.mark(),
    );
    requests(
        &mut x[in_optional_requests::REQUESTS..in_optional_requests::END],
        p.cell(Requests),
        p.mark(),
    );
}

fn times(x: &mut [u8], p: &Plan)
    requires { length x.old ≡ size_of_times }
{
    origin(&mut x[in_times::ORIGIN..in_times::PERISH], p);
    perish(&mut x[in_times::PERISH..in_times::REQUESTS], p);
    optional_requests(&mut x[in_times::REQUESTS..in_times::END], p);
}

fn compliance(x: &mut [u8], p: &Plan)
    requires { length x.old ≡ size_of_compliance }
{
    store_word(
        &mut x[in_compliance::CODE..in_compliance::CANTCO],
        p.cell(Code),
    );
    optional(
        &mut x[in_compliance::CANTCO..in_compliance::CANTPRO],
        p.get(Cantco),
        p.mark(),
    );
    optional(
        &mut x[in_compliance::CANTPRO..in_compliance::END],
        p.get(Cantpro),
        p.mark(),
    );
}

fn response(x: &mut [u8], p: &Plan)
    requires { length x.old ≡ size_of_response }
{
    stamp(&mut x[in_response::STAMP..in_response::COMPLIANCE], p);
    compliance(
        &mut x[in_response::COMPLIANCE..in_response::AMPLIFICATION],
        p,
    );
    let amplification = &mut x[in_response::AMPLIFICATION..in_response::END];
    optional_text(amplification, CHARACTERS, p.get(Amplification), p.mark());
}

// G8.
fn optional_response(x: &mut [u8], p: &Plan)
    requires { length x.old ≡ size_of_optional_response }
{
    flag(
        &mut x[in_optional_response::PRESENT..in_optional_response::RESPONSE],
        p.has(Code),
        p.mark(),
    );
    response(
        &mut x[in_optional_response::RESPONSE..in_optional_response::END],
        p,
    );
}

fn reference(x: &mut [u8], p: &Plan)
    requires { length x.old ≡ size_of_reference }
{
    address(
        &mut x[in_reference::ADDRESS..in_reference::STAMP],
        p.get(ReferenceUrn),
        CHARACTERS,
        None,
        p.mark(),
    );
    stamp(&mut x[in_reference::STAMP..in_reference::END], p);
}

// All alike.
fn reference_list(list: &mut [u8], p: &Plan)
    requires { length list.old ≡ size_of_references_list }
{
    for entry in list.chunks_exact_mut(in_references::ENTRY) {
        reference(entry, p);
    }
}

fn references(x: &mut [u8], p: &Plan)
    requires { length x.old ≡ size_of_references }
{
    reference_list(&mut x[in_references::LIST..in_references::COUNT], p);
    store_word(
        &mut x[in_references::COUNT..in_references::END],
        p.cell(References),
    );
}

// G9.
fn optional_references(x: &mut [u8], p: &Plan)
    requires { length x.old ≡ size_of_optional_references }
{
    flag(
        &mut x[in_optional_references::PRESENT..in_optional_references::REFERENCES],
        p.has(References),
        p.mark(),
    );
    references(
        &mut x[in_optional_references::REFERENCES..in_optional_references::END],
        p,
    );
}

pub fn block(x: &mut [u8], p: &Plan)
    requires { length x.old ≡ size_of_block }
{
    format(&mut x[in_block::FORMAT..in_block::HANDLING], p);
    handling(&mut x[in_block::HANDLING..in_block::TIMES], p);
    times(&mut x[in_block::TIMES..in_block::RESPONSE], p);
    optional_response(&mut x[in_block::RESPONSE..in_block::REFERENCES], p);
    optional_references(&mut x[in_block::REFERENCES..in_block::END], p);
}
