// The answers of the calls as numbers: a host of another language has no enum of ours.
#![tactic(auto)]

ghost use Rattle.std.specs.Prelude.{◌≡◌};
ghost use Rattle.reader.specs.Told.{told};
ghost use Rattle.writer.specs.Writing as writer;
ghost use Rattle.arguments.specs.Told.{answer_says, answer_place};
ghost use Rattle.listing.specs.Listing as listing;
ghost use Rattle.answers.specs.Numbers.{sized, refused_by, read_numbers, write_numbers, list_numbers, table_says};

use arguments::Answer;
use bits::{BitPlace, OctetSize};
use codec::{BlockNumber, Fault, Refusal};
use listing::ListingFault;

// Reading, the check, writing and the listing: number 0 and a size in octets; or a refusal's number, block and place,
// and size 0.
#[repr(C)]
#[derive(Clone, Copy)]
pub struct SizeAnswer {
    pub number: u32,
    pub block: u32,
    pub place: usize,
    pub length: usize,
}

// Posting, receipt and release: number 0 or the refusal's, its block, and the place, which is always 0.
#[repr(C)]
#[derive(Clone, Copy)]
pub struct TableAnswer {
    pub number: u32,
    pub block: u32,
    pub place: usize,
}

// A size in octets, and no refusal.
fn size(octets: OctetSize) -> SizeAnswer
    ensures { result ≡ sized octets.0 }
{
    SizeAnswer {
        number: 0,
        block: 0,
        place: 0,
        length: octets.0,
    }
}

// A refusal, and no size.
fn refused(number: u32, place: BitPlace, block: BlockNumber) -> SizeAnswer
    ensures { result ≡ refused_by number place.0 block.0 }
{
    SizeAnswer {
        number,
        block: block.0,
        place: place.0,
        length: 0,
    }
}

pub fn of_writing(answer: Result<OctetSize, Refusal<Fault>>) -> SizeAnswer
    ensures { result ≡ write_numbers (writer.told answer) }
{
    match answer {
        Ok(octets) => size(octets),
        Err(e) => refused(u32::from(e.fault), e.place, e.block),
    }
}

// Reading tells a size or a refusal as writing does.
pub fn of_reading(answer: Result<OctetSize, Refusal<Fault>>) -> SizeAnswer
    ensures { result ≡ read_numbers (told answer) }
{
    of_writing(answer)
}

pub fn of_listing(answer: Result<OctetSize, Refusal<ListingFault>>) -> SizeAnswer
    ensures { result ≡ list_numbers (listing.told answer) }
{
    match answer {
        Ok(written) => size(written),
        Err(e) => refused(u32::from(e.fault), e.place, e.block),
    }
}

pub fn of_call(answer: Answer) -> TableAnswer
    ensures { (table_says result ≡ answer_says answer) × (result.place ≡ answer_place answer) }
{
    match answer {
        Ok(()) => TableAnswer {
            number: 0,
            block: 0,
            place: 0,
        },
        Err(e) => TableAnswer {
            number: u32::from(e.fault),
            block: e.block.0,
            place: e.place.0,
        },
    }
}
