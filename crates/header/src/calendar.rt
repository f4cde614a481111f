// The days of a month, and the field that holds one of them.
ghost use Rattle.std.specs.Prelude.{◌≡◌};
ghost use Rattle.header.specs.Calendar.{days_in};
ghost use Rattle.header.specs.Table.{day_in};
ghost use Rattle.number.specs.Numbers.{number_of};

use crate::layout::DAY;
use number::Range;

// A day more in each year that divides by four. Year 0 does: it is 2000.
#[tactic(auto, using(std::proofs::lemmas::Bool::Decides::nat_tests), unfolding(crate::specs::Calendar::days_in))]
fn in_february(year: u32) -> u32
    ensures { result ≡ days_in year 2 }
{
    if year % 4 == 0 { 29 } else { 28 }
}

// By the year's last two digits. A number that is no month's has 31 days here; it is refused before they are asked for.
#[tactic(auto, using(std::proofs::lemmas::Bool::Decides::nat_tests), unfolding(crate::specs::Calendar::days_in))]
pub fn days_in(year: u32, month: u32) -> u32
    ensures { result ≡ days_in year month }
{
    match month {
        2 => in_february(year),
        4 | 6 | 9 | 11 => 30,
        _ => 31,
    }
}

// The field of a day, in its month.
pub fn day_in(year: u32, month: u32) -> Range
    ensures { (number_of result 3 ≡ day_in year month) × (result.width ≡ 5) }
{
    Range {
        width: DAY.width,
        least: DAY.least,
        most: days_in(year, month),
    }
}
