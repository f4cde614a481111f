// The numbers of Table I in its order: width in bits, least and largest legal value.
use number::Range;

pub const VERSION: Range = Range {
    width: 4,
    least: 1,
    most: 2,
};

pub const COMPRESSION: Range = Range {
    width: 2,
    least: 0,
    most: 1,
};

pub const URN: Range = Range {
    width: 24,
    least: 0,
    most: 16777215,
};

pub const HEADER_SIZE: Range = Range {
    width: 16,
    least: 0,
    most: 65535,
};

pub const UMF: Range = Range {
    width: 4,
    least: 0,
    most: 8,
};

pub const STANDARD_VERSION: Range = Range {
    width: 4,
    least: 0,
    most: 15,
};

pub const FAD: Range = Range {
    width: 4,
    least: 0,
    most: 15,
};

pub const MESSAGE_NUMBER: Range = Range {
    width: 7,
    least: 0,
    most: 127,
};

pub const MESSAGE_SUBTYPE: Range = Range {
    width: 7,
    least: 0,
    most: 127,
};

pub const MESSAGE_SIZE: Range = Range {
    width: 20,
    least: 0,
    most: 1048575,
};

pub const OPERATION: Range = Range {
    width: 2,
    least: 0,
    most: 3,
};

pub const RETRANSMIT: Range = Range {
    width: 1,
    least: 0,
    most: 1,
};

pub const PRECEDENCE: Range = Range {
    width: 3,
    least: 0,
    most: 7,
};

pub const CLASSIFICATION: Range = Range {
    width: 2,
    least: 0,
    most: 3,
};

pub const YEAR: Range = Range {
    width: 7,
    least: 0,
    most: 99,
};

pub const MONTH: Range = Range {
    width: 4,
    least: 1,
    most: 12,
};

// In the longest month. Which days there are in another is `calendar::day_in`; the bits are as many in each.
pub const DAY: Range = Range {
    width: 5,
    least: 1,
    most: 31,
};

pub const HOUR: Range = Range {
    width: 5,
    least: 0,
    most: 23,
};

pub const MINUTE: Range = Range {
    width: 6,
    least: 0,
    most: 59,
};

pub const SECOND: Range = Range {
    width: 6,
    least: 0,
    most: 59,
};

pub const EXTENSION: Range = Range {
    width: 12,
    least: 0,
    most: 4095,
};

pub const COMPLIANCE: Range = Range {
    width: 3,
    least: 1,
    most: 6,
};

pub const CANTCO: Range = Range {
    width: 3,
    least: 0,
    most: 7,
};

pub const CANTPRO: Range = Range {
    width: 6,
    least: 0,
    most: 63,
};

// The most characters of each text.
pub const NAME: usize = 64;

pub const FILE: usize = 64;

pub const MARKING: usize = 32;

pub const AMPLIFICATION: usize = 50;
