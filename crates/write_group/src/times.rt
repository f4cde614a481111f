// A block's G5 originator's DTG, G6 perishability DTG and G7 requests.
ghost use Rattle.codec.specs.Writes.{Room, Writes};
ghost use Rattle.header.specs.Table.{times};
ghost use Rattle.record_octets.specs.Record.{size_of_times, times_in};
ghost use Rattle.std.specs.Prelude.{length, ◌≡◌};

use crate::part::{Write, write_optional_part};
use bits::BitPlace;
use header::{Dtg, Requests, Stamp};
use leaves::numbers::write_mark;
use record_octets::{
    in_optional_dtg, in_optional_requests, in_optional_stamp, in_requests, in_times,
};

// G7.
impl Write for Requests {
    fn write(out: &mut [u8], at: BitPlace, x: &[u8]) -> BitPlace {
        let at = write_mark(out, at, &x[in_requests::MACHINE..in_requests::ACKNOWLEDGE]);
        let at = write_mark(out, at, &x[in_requests::ACKNOWLEDGE..in_requests::REPLY]);
        write_mark(out, at, &x[in_requests::REPLY..in_requests::END])
    }
}

pub fn write_times(out: &mut [u8], at: BitPlace, x: &[u8]) -> BitPlace
    requires { Room out.old at.0 (times.size (times_in x.now)) × (length x.now ≡ size_of_times) }
    ensures { Writes times (times_in x.now) out.old out.new at.0 result.0 }
{
    let at = write_optional_part::<Stamp>(
        out,
        at,
        in_optional_stamp::STAMP,
        &x[in_times::ORIGIN..in_times::PERISH],
    );
    let at = write_optional_part::<Dtg>(
        out,
        at,
        in_optional_dtg::DTG,
        &x[in_times::PERISH..in_times::REQUESTS],
    );
    write_optional_part::<Requests>(
        out,
        at,
        in_optional_requests::REQUESTS,
        &x[in_times::REQUESTS..in_times::END],
    )
}
