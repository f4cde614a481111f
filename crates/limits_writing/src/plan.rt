// A record described by numbers, each under a key, and the cases' names, which are made of them.
use Key::*;
use std::fmt;

// What the cell of a number, length or count holds where it is absent: it is illegal everywhere.
pub const ABSENT: u32 = u32::MAX;

#[derive(Clone, Copy)]
pub enum Key {
    // The fields up to G1. A text is described by its length. G1 is present where its URN or its name is; Neither
    // makes it present without them. Place and Character put another character into the name's cells.
    Version,
    Compression,
    Urn,
    Name,
    Neither,
    Place,
    Character,
    // G2 and G3 are described by their counts and by the addresses of their entries. The recipients behind the
    // first have a URN of their own, or the same name.
    Recipients,
    RecipientUrn,
    RecipientName,
    NextRecipient,
    Information,
    InformationUrn,
    // Whether there is a header size; the count of blocks; and in what the blocks behind the first differ.
    HeaderSize,
    Blocks,
    NextUmf,
    NextSize,
    NextCode,
    NextStandard,
    // The fields of a block. G4 is present where FAD is.
    Umf,
    Standard,
    Fad,
    MessageNumber,
    Subtype,
    FileName,
    Size,
    Operation,
    Retransmit,
    Precedence,
    Classification,
    Marking,
    // G5 and G6 are present or not; the requests are the three bits of G7; G8 is present where its code is.
    G5,
    G6,
    Requests,
    Code,
    Cantco,
    Cantpro,
    Amplification,
    References,
    ReferenceUrn,
    // One DTG and one extension for all groups that have them.
    Year,
    Month,
    Day,
    Hour,
    Minute,
    Second,
    Extension,
    // What every flag of the record that is set holds: a flag is set unless it is 0.
    Flags,
    // In what the 16th block differs from those before it.
    LastSize,
}

// The keys' labels, in their order.
const LABELS: [&str; 49] = [
    "version",
    "compression",
    "URN",
    "name of",
    "no form",
    "place",
    "character",
    "recipients",
    "recipient's URN",
    "recipient's name of",
    "next recipient's URN",
    "information addressees",
    "information addressee's URN",
    "header size",
    "blocks",
    "next UMF",
    "next size",
    "next R/C",
    "next standard version",
    "UMF",
    "standard version",
    "FAD",
    "message number",
    "subtype",
    "file name of",
    "size",
    "operation",
    "retransmit",
    "precedence",
    "classification",
    "marking of",
    "G5",
    "G6",
    "requests",
    "R/C",
    "CANTCO",
    "CANTPRO",
    "amplification of",
    "references",
    "reference's URN",
    "year",
    "month",
    "day",
    "hour",
    "minute",
    "second",
    "extension",
    "flags of",
    "last size",
];

// The number that a plan is to have under a key, and none for a field, a text or a group that is absent.
#[derive(Clone, Copy)]
pub struct Change {
    key: Key,
    number: Option<u32>,
}

impl Key {
    pub fn maybe(self, number: Option<u32>) -> Change {
        Change { key: self, number }
    }

    pub fn is(self, number: u32) -> Change {
        self.maybe(Some(number))
    }

    pub fn absent(self) -> Change {
        self.maybe(None)
    }
}

// A part of a case's name: the key's label and the number, or a dash.
impl fmt::Display for Change {
    fn fmt<W: fmt::Write>(&self, f: &mut fmt::Formatter<W>) -> fmt::Result {
        let label = LABELS[self.key as usize];
        match self.number {
            Some(number) => write!(f, "{label} {number}"),
            None => write!(f, "{label} -"),
        }
    }
}

// A record, by the number that it has under each key.
#[derive(Clone, Copy)]
pub struct Plan {
    numbers: [Option<u32>; 49],
}

impl Plan {
    pub fn get(&self, key: Key) -> Option<u32> {
        self.numbers[key as usize]
    }

    pub fn has(&self, key: Key) -> bool {
        self.get(key).is_some()
    }

    // What the cell of a number, length or count holds.
    pub fn cell(&self, key: Key) -> u32 {
        self.get(key).unwrap_or(ABSENT)
    }

    pub fn is_set(&self, key: Key) -> bool {
        self.get(key) == Some(1)
    }

    // What a flag of this plan holds where it is set.
    pub fn mark(&self) -> u8 {
        (self.cell(Flags) % 256) as u8
    }

    pub fn with(mut self, changes: &[Change]) -> Plan {
        for change in changes {
            self.numbers[change.key as usize] = change.number;
        }
        self
    }
}

// Document 01's octets A: no addresses, UMF 2. A group that a case makes present has in it what octets B have.
pub fn plain() -> Plan {
    let nothing = Plan {
        numbers: [None; 49],
    };
    nothing.with(&[
        Version.is(2),
        Neither.is(0),
        Character.is(0),
        RecipientUrn.is(3),
        NextRecipient.is(3),
        InformationUrn.is(3),
        HeaderSize.is(0),
        Blocks.is(1),
        NextUmf.is(2),
        Umf.is(2),
        MessageNumber.is(0),
        Operation.is(0),
        Retransmit.is(0),
        Precedence.is(0),
        Classification.is(0),
        G5.is(0),
        G6.is(0),
        ReferenceUrn.is(3),
        Year.is(96),
        Month.is(7),
        Day.is(3),
        Hour.is(16),
        Minute.is(27),
        Second.is(55),
        Flags.is(1),
    ])
}
