// A block's G5 originator's DTG, G6 perishability DTG and G7 requests.
ghost use Rattle.std.specs.Prelude.{◌≡◌, ◌+◌, length};
ghost use Rattle.codec.specs.Writes.{Placed};
ghost use Rattle.header.specs.Table.{times};
ghost use Rattle.record_octets.specs.Record.{size_of_times, times_in};

use crate::part::{End, end_optional_part};
use bits::BitPlace;
use flag::end_flag;
use header::{Dtg, Requests, Stamp};
use record_octets::{
    in_optional_dtg, in_optional_requests, in_optional_stamp, in_requests, in_times,
};

// G7: its bits do not depend on their values.
pub fn end_requests(at: BitPlace) -> BitPlace
    requires { Placed at.0 3 }
    ensures { result.0 ≡ at.0 + 3 }
{
    let at = end_flag(at);
    let at = end_flag(at);
    end_flag(at)
}

impl End for Requests {
    fn end(at: BitPlace, _x: &[u8]) -> BitPlace {
        end_requests(at)
    }
}

pub fn end_times(at: BitPlace, x: &[u8]) -> BitPlace
    requires { Placed at.0 (times.size (times_in x.now)) × (length x.now ≡ size_of_times) }
    ensures { result.0 ≡ at.0 + times.size (times_in x.now) }
{
    let at = end_optional_part::<Stamp>(
        at,
        in_optional_stamp::STAMP,
        &x[in_times::ORIGIN..in_times::PERISH],
    );
    let at = end_optional_part::<Dtg>(
        at,
        in_optional_dtg::DTG,
        &x[in_times::PERISH..in_times::REQUESTS],
    );
    end_optional_part::<Requests>(
        at,
        in_optional_requests::REQUESTS,
        &x[in_times::REQUESTS..in_times::END],
    )
}
