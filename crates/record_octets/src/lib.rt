// The layout of the octets of a record: for each struct a module `in_..` with the place of each of its fields, counted from the struct's own first
// octet, and END, its size; of a list also ENTRY, the size of an entry. A field ends where the next one starts. Written by layout/generate.py; what the octets mean is in specs/.
#![tactic(auto)]

// The octets of a record.
pub const RECORD: usize = 16312;

pub mod in_optional_number {
    pub const PRESENT: usize = 0;

    pub const VALUE: usize = 4;

    pub const END: usize = 8;
}

pub mod in_text {
    pub const CHARS: usize = 0;

    pub const LEN: usize = 64;

    pub const END: usize = 68;
}

pub mod in_optional_text {
    pub const PRESENT: usize = 0;

    pub const TEXT: usize = 4;

    pub const END: usize = 72;
}

pub mod in_address {
    pub const URN: usize = 0;

    pub const NAME: usize = 8;

    pub const END: usize = 80;
}

pub mod in_optional_address {
    pub const PRESENT: usize = 0;

    pub const ADDRESS: usize = 4;

    pub const END: usize = 84;
}

pub mod in_addresses {
    pub const LIST: usize = 0;

    pub const COUNT: usize = 1280;

    pub const ENTRY: usize = 80;

    pub const END: usize = 1284;
}

pub mod in_optional_addresses {
    pub const PRESENT: usize = 0;

    pub const ADDRESSES: usize = 4;

    pub const END: usize = 1288;
}

pub mod in_front {
    pub const VERSION: usize = 0;

    pub const COMPRESSION: usize = 4;

    pub const ORIGINATOR: usize = 12;

    pub const RECIPIENTS: usize = 96;

    pub const INFORMATION: usize = 1384;

    pub const END: usize = 2672;
}

pub mod in_date {
    pub const YEAR: usize = 0;

    pub const MONTH: usize = 4;

    pub const DAY: usize = 8;

    pub const END: usize = 12;
}

pub mod in_time {
    pub const HOUR: usize = 0;

    pub const MINUTE: usize = 4;

    pub const SECOND: usize = 8;

    pub const END: usize = 12;
}

pub mod in_dtg {
    pub const DATE: usize = 0;

    pub const TIME: usize = 12;

    pub const END: usize = 24;
}

pub mod in_optional_dtg {
    pub const PRESENT: usize = 0;

    pub const DTG: usize = 4;

    pub const END: usize = 28;
}

pub mod in_stamp {
    pub const DTG: usize = 0;

    pub const EXTENSION: usize = 24;

    pub const END: usize = 32;
}

pub mod in_optional_stamp {
    pub const PRESENT: usize = 0;

    pub const STAMP: usize = 4;

    pub const END: usize = 36;
}

pub mod in_identity {
    pub const FAD: usize = 0;

    pub const NUMBER: usize = 4;

    pub const SUBTYPE: usize = 8;

    pub const END: usize = 16;
}

pub mod in_optional_identity {
    pub const PRESENT: usize = 0;

    pub const IDENTITY: usize = 4;

    pub const END: usize = 20;
}

pub mod in_format {
    pub const UMF: usize = 0;

    pub const VERSION: usize = 4;

    pub const IDENTITY: usize = 12;

    pub const FILE: usize = 32;

    pub const END: usize = 104;
}

pub mod in_codes {
    pub const OPERATION: usize = 0;

    pub const RETRANSMIT: usize = 4;

    pub const PRECEDENCE: usize = 8;

    pub const CLASSIFICATION: usize = 12;

    pub const END: usize = 16;
}

pub mod in_handling {
    pub const SIZE: usize = 0;

    pub const CODES: usize = 8;

    pub const MARKING: usize = 24;

    pub const END: usize = 96;
}

pub mod in_requests {
    pub const MACHINE: usize = 0;

    pub const ACKNOWLEDGE: usize = 1;

    pub const REPLY: usize = 2;

    pub const END: usize = 3;
}

pub mod in_optional_requests {
    pub const PRESENT: usize = 0;

    pub const REQUESTS: usize = 1;

    pub const END: usize = 4;
}

pub mod in_times {
    pub const ORIGIN: usize = 0;

    pub const PERISH: usize = 36;

    pub const REQUESTS: usize = 64;

    pub const END: usize = 68;
}

pub mod in_compliance {
    pub const CODE: usize = 0;

    pub const CANTCO: usize = 4;

    pub const CANTPRO: usize = 12;

    pub const END: usize = 20;
}

pub mod in_response {
    pub const STAMP: usize = 0;

    pub const COMPLIANCE: usize = 32;

    pub const AMPLIFICATION: usize = 52;

    pub const END: usize = 124;
}

pub mod in_optional_response {
    pub const PRESENT: usize = 0;

    pub const RESPONSE: usize = 4;

    pub const END: usize = 128;
}

pub mod in_reference {
    pub const ADDRESS: usize = 0;

    pub const STAMP: usize = 80;

    pub const END: usize = 112;
}

pub mod in_references {
    pub const LIST: usize = 0;

    pub const COUNT: usize = 448;

    pub const ENTRY: usize = 112;

    pub const END: usize = 452;
}

pub mod in_optional_references {
    pub const PRESENT: usize = 0;

    pub const REFERENCES: usize = 4;

    pub const END: usize = 456;
}

pub mod in_block {
    pub const FORMAT: usize = 0;

    pub const HANDLING: usize = 104;

    pub const TIMES: usize = 200;

    pub const RESPONSE: usize = 268;

    pub const REFERENCES: usize = 396;

    pub const END: usize = 852;
}

pub mod in_blocks {
    pub const LIST: usize = 0;

    pub const COUNT: usize = 13632;

    pub const ENTRY: usize = 852;

    pub const END: usize = 13636;
}

pub mod in_header {
    pub const FRONT: usize = 0;

    pub const SIZED: usize = 2672;

    pub const BLOCKS: usize = 2676;

    pub const END: usize = 16312;
}
