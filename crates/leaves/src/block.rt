// What the rules, the sizes and the table calls look at in a message block, where it lies.
ghost use Rattle.std.specs.Prelude.{◌≡◌, length};
ghost use Rattle.record_octets.specs.Record.{size_of_block, block_in};

use crate::numbers::load_optional;
use cells::{load_flag, load_word};
use optional::OptionalNumber;
use record_octets::{
    in_block, in_compliance, in_format, in_handling, in_optional_dtg, in_optional_identity,
    in_optional_number, in_optional_requests, in_optional_response, in_optional_stamp, in_requests,
    in_response, in_times,
};

pub fn umf(b: &[u8]) -> u32
    requires { length b.now ≡ size_of_block }
    ensures { result ≡ (block_in b.now).format.umf }
{
    let format = &b[in_block::FORMAT..in_block::HANDLING];
    load_word(&format[in_format::UMF..in_format::VERSION])
}

// G4.
pub fn has_identity(b: &[u8]) -> bool
    requires { length b.now ≡ size_of_block }
    ensures { result ≡ (block_in b.now).format.identity.present }
{
    let format = &b[in_block::FORMAT..in_block::HANDLING];
    let identity = &format[in_format::IDENTITY..in_format::FILE];
    load_flag(&identity[in_optional_identity::PRESENT..in_optional_identity::IDENTITY])
}

pub fn message_size(b: &[u8]) -> OptionalNumber
    requires { length b.now ≡ size_of_block }
    ensures { result ≡ (block_in b.now).handling.size }
{
    let handling = &b[in_block::HANDLING..in_block::TIMES];
    load_optional(&handling[in_handling::SIZE..in_handling::CODES])
}

// G5.
pub fn has_origin(b: &[u8]) -> bool
    requires { length b.now ≡ size_of_block }
    ensures { result ≡ (block_in b.now).times.origin.present }
{
    let times = &b[in_block::TIMES..in_block::RESPONSE];
    let origin = &times[in_times::ORIGIN..in_times::PERISH];
    load_flag(&origin[in_optional_stamp::PRESENT..in_optional_stamp::STAMP])
}

// G6.
pub fn has_perish(b: &[u8]) -> bool
    requires { length b.now ≡ size_of_block }
    ensures { result ≡ (block_in b.now).times.perish.present }
{
    let times = &b[in_block::TIMES..in_block::RESPONSE];
    let perish = &times[in_times::PERISH..in_times::REQUESTS];
    load_flag(&perish[in_optional_dtg::PRESENT..in_optional_dtg::DTG])
}

// G7.
pub fn has_requests(b: &[u8]) -> bool
    requires { length b.now ≡ size_of_block }
    ensures { result ≡ (block_in b.now).times.requests.present }
{
    let times = &b[in_block::TIMES..in_block::RESPONSE];
    let requests = &times[in_times::REQUESTS..in_times::END];
    load_flag(&requests[in_optional_requests::PRESENT..in_optional_requests::REQUESTS])
}

pub fn asks_machine(b: &[u8]) -> bool
    requires { length b.now ≡ size_of_block }
    ensures { result ≡ (block_in b.now).times.requests.requests.machine }
{
    let times = &b[in_block::TIMES..in_block::RESPONSE];
    let requests = &times[in_times::REQUESTS..in_times::END];
    let asked = &requests[in_optional_requests::REQUESTS..in_optional_requests::END];
    load_flag(&asked[in_requests::MACHINE..in_requests::ACKNOWLEDGE])
}

pub fn asks_acknowledge(b: &[u8]) -> bool
    requires { length b.now ≡ size_of_block }
    ensures { result ≡ (block_in b.now).times.requests.requests.acknowledge }
{
    let times = &b[in_block::TIMES..in_block::RESPONSE];
    let requests = &times[in_times::REQUESTS..in_times::END];
    let asked = &requests[in_optional_requests::REQUESTS..in_optional_requests::END];
    load_flag(&asked[in_requests::ACKNOWLEDGE..in_requests::REPLY])
}

pub fn asks_reply(b: &[u8]) -> bool
    requires { length b.now ≡ size_of_block }
    ensures { result ≡ (block_in b.now).times.requests.requests.reply }
{
    let times = &b[in_block::TIMES..in_block::RESPONSE];
    let requests = &times[in_times::REQUESTS..in_times::END];
    let asked = &requests[in_optional_requests::REQUESTS..in_optional_requests::END];
    load_flag(&asked[in_requests::REPLY..in_requests::END])
}

// G8.
pub fn has_response(b: &[u8]) -> bool
    requires { length b.now ≡ size_of_block }
    ensures { result ≡ (block_in b.now).response.present }
{
    let response = &b[in_block::RESPONSE..in_block::REFERENCES];
    load_flag(&response[in_optional_response::PRESENT..in_optional_response::RESPONSE])
}

pub fn compliance_code(b: &[u8]) -> u32
    requires { length b.now ≡ size_of_block }
    ensures { result ≡ (block_in b.now).response.response.compliance.code }
{
    let response = &b[in_block::RESPONSE..in_block::REFERENCES];
    let answer = &response[in_optional_response::RESPONSE..in_optional_response::END];
    let compliance = &answer[in_response::COMPLIANCE..in_response::AMPLIFICATION];
    load_word(&compliance[in_compliance::CODE..in_compliance::CANTCO])
}

pub fn has_cantco(b: &[u8]) -> bool
    requires { length b.now ≡ size_of_block }
    ensures { result ≡ (block_in b.now).response.response.compliance.cantco.present }
{
    let response = &b[in_block::RESPONSE..in_block::REFERENCES];
    let answer = &response[in_optional_response::RESPONSE..in_optional_response::END];
    let compliance = &answer[in_response::COMPLIANCE..in_response::AMPLIFICATION];
    let cantco = &compliance[in_compliance::CANTCO..in_compliance::CANTPRO];
    load_flag(&cantco[in_optional_number::PRESENT..in_optional_number::VALUE])
}

pub fn has_cantpro(b: &[u8]) -> bool
    requires { length b.now ≡ size_of_block }
    ensures { result ≡ (block_in b.now).response.response.compliance.cantpro.present }
{
    let response = &b[in_block::RESPONSE..in_block::REFERENCES];
    let answer = &response[in_optional_response::RESPONSE..in_optional_response::END];
    let compliance = &answer[in_response::COMPLIANCE..in_response::AMPLIFICATION];
    let cantpro = &compliance[in_compliance::CANTPRO..in_compliance::END];
    load_flag(&cantpro[in_optional_number::PRESENT..in_optional_number::VALUE])
}
