// A line of a script. Its first word is the call. A capital letter behind it begins a part, a number behind that belongs
// to the part, which is 0 if there is none, and a name stands in round brackets; other characters are there for the
// reader. Each To adds a recipient.
use Part::*;
use header::zero::{NO_NUMBER, no_address};
use header::{Address, Date, Dtg, Stamp, Time};
use optional::OptionalNumber;

// What the cell of a number holds for a part that a line does not have.
pub const ABSENT: u32 = u32::MAX;

// The parts of a line, each named by the words of which one begins with the part's letter.
#[derive(Clone, Copy)]
pub enum Part {
    Asked,
    Blocks,
    Code,
    Day,
    Identified,
    FromAddress,
    Given,
    Hour,
    InFormat,
    Kind,
    LaterFormat,
    Minute,
    Number,
    OfMonth,
    Second,
    ToAddress,
    UserData,
    Version,
    WithStandard,
    Extension,
    Year,
    NoHeaderSize,
}

impl Part {
    fn of_letter(letter: u8) -> Option<Part> {
        match letter {
            b'A' => Some(Asked),
            b'B' => Some(Blocks),
            b'C' => Some(Code),
            b'D' => Some(Day),
            b'E' => Some(Identified),
            b'F' => Some(FromAddress),
            b'G' => Some(Given),
            b'H' => Some(Hour),
            b'I' => Some(InFormat),
            b'K' => Some(Kind),
            b'L' => Some(LaterFormat),
            b'M' => Some(Minute),
            b'N' => Some(Number),
            b'O' => Some(OfMonth),
            b'S' => Some(Second),
            b'T' => Some(ToAddress),
            b'U' => Some(UserData),
            b'V' => Some(Version),
            b'W' => Some(WithStandard),
            b'X' => Some(Extension),
            b'Y' => Some(Year),
            b'Z' => Some(NoHeaderSize),
            _ => None,
        }
    }
}

// Characters that a script writes as others: quote, backslash, a control character, and one that is illegal.
fn meant(c: u8) -> u8 {
    match c {
        b'\'' => b'"',
        b'/' => b'\\',
        b'^' => 31,
        b'~' => 127,
        _ => c,
    }
}

// What has been read of a line: its numbers and its addresses, of which the count may be one too many; and the part
// that is being read, with its address, and whether a name is.
#[derive(Clone, Copy)]
pub struct Line {
    numbers: [Option<u32>; 22],
    pub from: Option<Address>,
    pub to: [Address; 16],
    pub count: u32,
    part: Option<Part>,
    address: Address,
    quoted: bool,
}

impl Line {
    // The DTG, without an extension, is that of document 01's octets B; block 1 of 1, in UMF 2 without G4.
    fn new() -> Line {
        let mut line = Line {
            numbers: [None; 22],
            from: None,
            to: [no_address(); 16],
            count: 0,
            part: None,
            address: no_address(),
            quoted: false,
        };
        for (part, number) in [
            (Blocks, 1),
            (Day, 3),
            (Given, 4096),
            (Hour, 16),
            (InFormat, 2),
            (Kind, 0),
            (LaterFormat, 2),
            (Minute, 27),
            (Number, 1),
            (OfMonth, 7),
            (Second, 55),
            (Version, 2),
            (Year, 96),
        ] {
            line.numbers[part as usize] = Some(number);
        }
        line
    }

    // The parts that stand behind the first word.
    pub fn read(parts: &str) -> Line {
        let mut line = Line::new();
        for c in parts.bytes() {
            line.take(c);
        }
        line
    }

    pub fn get(&self, part: Part) -> Option<u32> {
        self.numbers[part as usize]
    }

    pub fn has(&self, part: Part) -> bool {
        self.get(part).is_some()
    }

    pub fn cell(&self, part: Part) -> u32 {
        self.get(part).unwrap_or(ABSENT)
    }

    pub fn optional(&self, part: Part) -> OptionalNumber {
        OptionalNumber {
            present: self.has(part),
            value: self.cell(part),
        }
    }

    pub fn stamp(&self) -> Stamp {
        Stamp {
            dtg: Dtg {
                date: Date {
                    year: self.cell(Year),
                    month: self.cell(OfMonth),
                    day: self.cell(Day),
                },
                time: Time {
                    hour: self.cell(Hour),
                    minute: self.cell(Minute),
                    second: self.cell(Second),
                },
            },
            extension: self.optional(Extension),
        }
    }

    // The same with another number.
    pub fn with(mut self, part: Part, number: Option<u32>) -> Line {
        self.numbers[part as usize] = number;
        self
    }

    // The address that is being read, put where it belongs. A 17th recipient is counted, but has no place.
    fn place(&mut self) {
        match self.part {
            Some(FromAddress) => self.from = Some(self.address),
            Some(ToAddress) if 1 <= self.count && self.count <= 16 => {
                self.to[self.count as usize - 1] = self.address;
            }
            _ => {}
        }
    }

    // The cells behind a name keep what an earlier name left in them.
    fn begin(&mut self, letter: u8) {
        self.part = Part::of_letter(letter);
        self.address.urn = NO_NUMBER;
        self.address.name.present = false;
        self.address.name.text.len = 0;
        if let Some(part) = self.part {
            self.numbers[part as usize] = Some(0);
            if let ToAddress = part
                && self.count < 17
            {
                self.count += 1;
            }
        }
        self.place();
    }

    fn take_digit(&mut self, digit: u8) {
        if let Some(part) = self.part {
            let number = self.cell(part) % 100000000 * 10 + u32::from(digit);
            self.numbers[part as usize] = Some(number);
            self.address.urn = OptionalNumber {
                present: true,
                value: number,
            };
            self.place();
        }
    }

    // A character of a name, or the bracket behind it. A 65th character is counted, but has no cell.
    fn take_quoted(&mut self, c: u8) {
        if c == b')' {
            self.quoted = false;
            self.address.name.present = true;
            return self.place();
        }
        let len = self.address.name.text.len;
        if len < 64 {
            self.address.name.text.chars[len as usize] = meant(c);
        }
        if len < 65 {
            self.address.name.text.len = len + 1;
        }
    }

    fn take(&mut self, c: u8) {
        if self.quoted {
            return self.take_quoted(c);
        }
        match c {
            b'(' => self.quoted = true,
            b'0'..=b'9' => self.take_digit(c - b'0'),
            b'A'..=b'Z' => self.begin(c),
            _ => {}
        }
    }
}
