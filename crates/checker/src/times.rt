// A block's G5 originator's DTG and G6 perishability DTG.
ghost use Rattle.std.specs.Prelude.{◌≡◌, length};
ghost use Rattle.codec.specs.Refusals.{check_no};
ghost use Rattle.header.specs.Table.{times};
ghost use Rattle.record_octets.specs.Record.{size_of_times, times_in};

use crate::part::check_optional_part;
use codec::Fault;
use header::{Dtg, Stamp};
use record_octets::{in_optional_dtg, in_optional_stamp, in_times};

// G5 and G6; every value of G7 is legal.
pub fn check_times(x: &[u8]) -> Result<(), Fault>
    requires { length x.now ≡ size_of_times }
    ensures { check_no result ≡ times.check (times_in x.now) }
{
    check_optional_part::<Stamp>(
        in_optional_stamp::STAMP,
        &x[in_times::ORIGIN..in_times::PERISH],
    )?;
    check_optional_part::<Dtg>(
        in_optional_dtg::DTG,
        &x[in_times::PERISH..in_times::REQUESTS],
    )
}
