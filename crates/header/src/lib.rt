// The record of a header: every field of Table I in its order, with its presence beside each one that
// may be absent. What is not present, or lies behind a count, is an unused cell and carries no meaning.
#![tactic(auto)]

use optional::OptionalNumber;
use text::Text;

pub mod addressees;
pub mod calendar;
pub mod editions;
pub mod layout;
pub mod zero;

#[repr(C)]
#[derive(Clone, Copy)]
pub struct OptionalText {
    pub present: bool,
    pub text: Text,
}

// An address: a URN or a unit name, exactly one of them.
#[repr(C)]
#[derive(Clone, Copy)]
pub struct Address {
    pub urn: OptionalNumber,
    pub name: OptionalText,
}

#[repr(C)]
#[derive(Clone, Copy)]
pub struct OptionalAddress {
    pub present: bool,
    pub address: Address,
}

#[repr(C)]
#[derive(Clone, Copy)]
pub struct Addresses {
    pub list: [Address; 16],
    pub count: u32,
}

#[repr(C)]
#[derive(Clone, Copy)]
pub struct OptionalAddresses {
    pub present: bool,
    pub addresses: Addresses,
}

// The fields up to the end of G3: version, compression, G1 originator, G2 recipients and G3
// information addressees.
#[repr(C)]
#[derive(Clone, Copy)]
pub struct Front {
    pub version: u32,
    pub compression: OptionalNumber,
    pub originator: OptionalAddress,
    pub recipients: OptionalAddresses,
    pub information: OptionalAddresses,
}

#[repr(C)]
#[derive(Clone, Copy)]
pub struct Date {
    pub year: u32,
    pub month: u32,
    pub day: u32,
}

#[repr(C)]
#[derive(Clone, Copy)]
pub struct Time {
    pub hour: u32,
    pub minute: u32,
    pub second: u32,
}

// A date-time group.
#[repr(C)]
#[derive(Clone, Copy)]
pub struct Dtg {
    pub date: Date,
    pub time: Time,
}

#[repr(C)]
#[derive(Clone, Copy)]
pub struct OptionalDtg {
    pub present: bool,
    pub dtg: Dtg,
}

// A DTG with its extension: what names a message beside its originator.
#[repr(C)]
#[derive(Clone, Copy)]
pub struct Stamp {
    pub dtg: Dtg,
    pub extension: OptionalNumber,
}

#[repr(C)]
#[derive(Clone, Copy)]
pub struct OptionalStamp {
    pub present: bool,
    pub stamp: Stamp,
}

// G4: functional area designator, message number and subtype.
#[repr(C)]
#[derive(Clone, Copy)]
pub struct Identity {
    pub fad: u32,
    pub number: u32,
    pub subtype: OptionalNumber,
}

#[repr(C)]
#[derive(Clone, Copy)]
pub struct OptionalIdentity {
    pub present: bool,
    pub identity: Identity,
}

// A block's first fields: user message format, message standard version, G4, file name.
#[repr(C)]
#[derive(Clone, Copy)]
pub struct Format {
    pub umf: u32,
    pub version: OptionalNumber,
    pub identity: OptionalIdentity,
    pub file: OptionalText,
}

// Operation and retransmit indicators, message precedence, security classification.
#[repr(C)]
#[derive(Clone, Copy)]
pub struct Codes {
    pub operation: u32,
    pub retransmit: u32,
    pub precedence: u32,
    pub classification: u32,
}

// A block's next fields: message size, the four codes, control and release marking.
#[repr(C)]
#[derive(Clone, Copy)]
pub struct Handling {
    pub size: OptionalNumber,
    pub codes: Codes,
    pub marking: OptionalText,
}

// G7: machine acknowledge, operator acknowledge and operator reply requests.
#[repr(C)]
#[derive(Clone, Copy)]
pub struct Requests {
    pub machine: bool,
    pub acknowledge: bool,
    pub reply: bool,
}

#[repr(C)]
#[derive(Clone, Copy)]
pub struct OptionalRequests {
    pub present: bool,
    pub requests: Requests,
}

// G5 originator's DTG, G6 perishability DTG, G7 requests.
#[repr(C)]
#[derive(Clone, Copy)]
pub struct Times {
    pub origin: OptionalStamp,
    pub perish: OptionalDtg,
    pub requests: OptionalRequests,
}

// Receipt/compliance with its CANTCO and CANTPRO reasons.
#[repr(C)]
#[derive(Clone, Copy)]
pub struct Compliance {
    pub code: u32,
    pub cantco: OptionalNumber,
    pub cantpro: OptionalNumber,
}

// G8: the DTG of the message answered, the answer, and its amplification.
#[repr(C)]
#[derive(Clone, Copy)]
pub struct Response {
    pub stamp: Stamp,
    pub compliance: Compliance,
    pub amplification: OptionalText,
}

#[repr(C)]
#[derive(Clone, Copy)]
pub struct OptionalResponse {
    pub present: bool,
    pub response: Response,
}

// An entry of G9: a message referred to.
#[repr(C)]
#[derive(Clone, Copy)]
pub struct Reference {
    pub address: Address,
    pub stamp: Stamp,
}

#[repr(C)]
#[derive(Clone, Copy)]
pub struct References {
    pub list: [Reference; 4],
    pub count: u32,
}

#[repr(C)]
#[derive(Clone, Copy)]
pub struct OptionalReferences {
    pub present: bool,
    pub references: References,
}

// A message block. The presence bit of G10 has to be 0 and has no cell.
#[repr(C)]
#[derive(Clone, Copy)]
pub struct Block {
    pub format: Format,
    pub handling: Handling,
    pub times: Times,
    pub response: OptionalResponse,
    pub references: OptionalReferences,
}

#[repr(C)]
#[derive(Clone, Copy)]
pub struct Blocks {
    pub list: [Block; 16],
    pub count: u32,
}

// The record: the header size is present or not; its number is the header's own octets.
#[repr(C)]
#[derive(Clone, Copy)]
pub struct Header {
    pub front: Front,
    pub sized: bool,
    pub blocks: Blocks,
}

// The header as its bits hold it, with the number in the header size field.
#[derive(Clone, Copy)]
pub struct Wire {
    pub front: Front,
    pub size: OptionalNumber,
    pub blocks: Blocks,
}

// What the rules look at in the fields before the blocks: whether there is an originator, compression, a header size, and
// more than one block.
#[derive(Clone, Copy)]
pub struct Setting {
    pub originator: bool,
    pub compression: bool,
    pub sized: bool,
    pub several: bool,
}
