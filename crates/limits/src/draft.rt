// A datagram built field by field, each field behind the one before it.
ghost use Rattle.std.specs.Prelude.{◌≤◌};

use bits::BitPlace;

// The octets of a datagram and the place behind its last field; every bit from there on is 0. A field
// for which there is no room is left out, and no other fits behind it: the place is then the last, 2048.
#[derive(Clone, Copy)]
pub struct Draft {
    pub octets: [u8; 256],
    pub end: BitPlace,
    ghost inside: { end.0 ≤ 2048 },
}

impl Draft {
    // Version 2 and no compression: the first 5 bits of every case but those on these two fields.
    pub fn start() -> Draft {
        Draft::new().number(4, 2).flag(false)
    }

    pub fn new() -> Draft {
        Draft {
            octets: [0; 256],
            end: BitPlace(0),
        }
    }

    // A field of so many bits: the low ones of the value.
    pub fn number(mut self, width: usize, value: u32) -> Draft {
        let at = self.end;
        if 24 < width || 2048 - at.0 < width {
            self.end = BitPlace(2048);
            return self;
        }
        bits::write_bits(&mut self.octets, at, width, value);
        self.end = BitPlace(at.0 + width);
        self
    }

    // A presence or recurrence bit.
    pub fn flag(self, set: bool) -> Draft {
        self.number(1, u32::from(set))
    }

    // The presence bits of so many fields or groups that are absent.
    pub fn absent(self, count: usize) -> Draft {
        self.number(count, 0)
    }

    // A text: 7 bits for each character, and 7 for the marker where the maximum is not reached. The
    // characters are 126, the largest, and such as lie below it.
    pub fn text(mut self, count: u32, most: u32) -> Draft {
        for left in (0..count).rev() {
            self = self.number(7, 126 - left % 64);
        }
        if count < most {
            self.number(7, 127)
        } else {
            self
        }
    }

    // An address by URN: 26 bits.
    pub fn urn(self, number: u32) -> Draft {
        self.flag(true).number(24, number).flag(false)
    }

    // An address by unit name: 2 bits and the text.
    pub fn name(self, count: u32) -> Draft {
        self.flag(false).flag(true).text(count, 64)
    }

    // A date: 16 bits.
    pub fn date(self, year: u32, month: u32, day: u32) -> Draft {
        self.number(7, year).number(4, month).number(5, day)
    }

    // A time of day: 17 bits.
    pub fn time(self, hour: u32, minute: u32, second: u32) -> Draft {
        self.number(5, hour).number(6, minute).number(6, second)
    }

    // A DTG and the absence of its extension: 34 bits.
    pub fn stamp(self, minute: u32) -> Draft {
        self.date(96, 7, 3).time(16, minute, 55).flag(false)
    }
}
