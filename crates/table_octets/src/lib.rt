// The layout of the octets of a table: for each struct a module `in_..` with the place of each of its fields, counted from the struct's own first
// octet, and END, its size; of a list also ENTRY, the size of an entry. A field ends where the next one starts. Written by layout/generate.py; what the octets mean is in specs/.
#![tactic(auto)]

// The octets of a table.
pub const TABLE: usize = 50948;

// The octets of a key.
pub const KEY: usize = 112;

pub mod in_key {
    pub const ADDRESS: usize = 0;

    pub const STAMP: usize = 80;

    pub const END: usize = 112;
}

pub mod in_recipient {
    pub const ADDRESS: usize = 0;

    pub const MACHINE: usize = 80;

    pub const ACKNOWLEDGE: usize = 84;

    pub const REPLY: usize = 88;

    pub const END: usize = 92;
}

pub mod in_row {
    pub const KEY: usize = 0;

    pub const ASKED: usize = 112;

    pub const UNUSED: usize = 115;

    pub const RECIPIENTS: usize = 116;

    pub const COUNT: usize = 1588;

    pub const ENTRY: usize = 92;

    pub const END: usize = 1592;
}

pub mod in_table {
    pub const ROWS: usize = 0;

    pub const COUNT: usize = 50944;

    pub const ENTRY: usize = 1592;

    pub const END: usize = 50948;
}
