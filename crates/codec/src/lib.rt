// What reading, writing and checking answer: the kinds of fault, and the errors of a field, of a message block and of a
// call; what a reading gives.
#![tactic(auto)]

ghost use Rattle.std.specs.Prelude.{◌≡◌};
ghost use Rattle.codec.specs.Numbers.{fault_no};

use bits::BitPlace;

// The kinds of refusal of a header: those of fields, fill bits and lengths, then the rules (a) to (i), then the
// sizes.
#[derive(Clone, Copy)]
pub enum Fault {
    Short,
    Version,
    Code,
    BadText,
    Count,
    Forms,
    Security,
    Fill,
    NoRoom,
    TooLong,
    RuleA,
    RuleB,
    RuleC,
    RuleD,
    RuleE,
    RuleF,
    RuleG,
    RuleH,
    RuleI,
    HeaderSize,
    SizeSum,
    NoBody,
    NeedlessBody,
}

// The number of a refusal, by which a host and the papers name it.
impl From<Fault> for u32 {
    ghost from_gives = { λ f n. n ≡ fault_no f };

    fn from(f: Fault) -> u32 {
        match f {
            Fault::Short => 1,
            Fault::Version => 2,
            Fault::Code => 3,
            Fault::BadText => 4,
            Fault::Count => 5,
            Fault::Forms => 6,
            Fault::Security => 7,
            Fault::Fill => 9,
            Fault::NoRoom => 11,
            Fault::TooLong => 12,
            Fault::RuleA => 41,
            Fault::RuleB => 42,
            Fault::RuleC => 43,
            Fault::RuleD => 44,
            Fault::RuleE => 45,
            Fault::RuleF => 46,
            Fault::RuleG => 47,
            Fault::RuleH => 48,
            Fault::RuleI => 49,
            Fault::HeaderSize => 51,
            Fault::SizeSum => 52,
            Fault::NoBody => 53,
            Fault::NeedlessBody => 54,
        }
    }
}

// Which message block a refusal is about, counted from 1; 0 where it is about none.
#[derive(Clone, Copy)]
pub struct BlockNumber(pub u32);

// Why the reading of a field was refused: the kind of fault, and the bit place.
#[derive(Clone, Copy)]
pub struct FieldFault {
    pub fault: Fault,
    pub place: BitPlace,
}

// How reading a group went on: at the next place, or with a refusal.
pub type Step = Result<BitPlace, FieldFault>;

// A value that was read with the next place, or a refusal.
pub type Reading<T> = Result<(T, BitPlace), FieldFault>;

// What the rules or the sizes refuse: the kind of fault, and the message block that breaks it.
#[derive(Clone, Copy)]
pub struct BlockFault {
    pub fault: Fault,
    pub block: BlockNumber,
}

// Why a call is refused: the kind of fault, the bit place, and the message block, 0 where the refusal is about none.
#[derive(Clone, Copy)]
pub struct Refusal<F> {
    pub fault: F,
    pub place: BitPlace,
    pub block: BlockNumber,
}

// A refusal that tells no place and is about no block.
impl<F> From<F> for Refusal<F> {
    ghost from_gives = { λ f r. (r.fault ≡ f) × (r.place.0 ≡ 0) × (r.block.0 ≡ 0) };

    fn from(fault: F) -> Refusal<F> {
        Refusal {
            fault,
            place: BitPlace(0),
            block: BlockNumber(0),
        }
    }
}

impl From<FieldFault> for Refusal<Fault> {
    ghost from_gives = { λ e r. (r.fault ≡ e.fault) × (r.place ≡ e.place) × (r.block.0 ≡ 0) };

    fn from(e: FieldFault) -> Refusal<Fault> {
        Refusal {
            fault: e.fault,
            place: e.place,
            block: BlockNumber(0),
        }
    }
}

impl From<BlockFault> for Refusal<Fault> {
    ghost from_gives = { λ e r. (r.fault ≡ e.fault) × (r.place.0 ≡ 0) × (r.block ≡ e.block) };

    fn from(e: BlockFault) -> Refusal<Fault> {
        Refusal {
            fault: e.fault,
            place: BitPlace(0),
            block: e.block,
        }
    }
}
