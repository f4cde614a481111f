// A block's G5 originator's DTG, G6 perishability DTG and G7 requests.
ghost use Rattle.std.specs.Prelude.{◌≡◌, ◌≤◌, length};
ghost use Rattle.bits.specs.Datagrams.{bits_in};
ghost use Rattle.cells.specs.Cells.{zeros};
ghost use Rattle.header.specs.Table.{optional_stamp, optional_dtg, requests, optional_requests, times};
ghost use Rattle.into.specs.Into.{Into};
ghost use Rattle.record_octets.specs.Record.{size_of_optional_stamp, optional_stamp_octets, size_of_optional_dtg, optional_dtg_octets, size_of_requests, requests_octets, size_of_optional_requests, optional_requests_octets, size_of_times, times_octets};
ghost use Rattle.record_octets.specs.Typed.{TypedOptionalStamp, TypedOptionalDtg, TypedTimes};

use crate::dtg::{read_dtg, read_stamp};
use bits::{BitPlace, Datagram};
use cells::{store_flag, store_mark};
use codec::Step;
use flag::read_flag;
use read_leaves::numbers::read_mark;
use record_octets::{
    in_optional_dtg, in_optional_requests, in_optional_stamp, in_requests, in_times,
};

// G5.
pub fn read_optional_stamp(s: Datagram, at: BitPlace, x: &mut [u8]) -> Step
    requires { (x.old ≡ zeros size_of_optional_stamp) × (length x.old ≡ size_of_optional_stamp) }
    ensures { Into optional_stamp optional_stamp_octets TypedOptionalStamp (bits_in s.entry) at.0 result x.new }
{
    let (present, at) = read_flag(s, at)?;
    if present {
        store_mark(
            &mut x[in_optional_stamp::PRESENT..in_optional_stamp::STAMP],
            present,
        );
        return read_stamp(
            s,
            at,
            &mut x[in_optional_stamp::STAMP..in_optional_stamp::END],
        );
    }
    Ok(at)
}

// G6.
pub fn read_optional_dtg(s: Datagram, at: BitPlace, x: &mut [u8]) -> Step
    requires { (x.old ≡ zeros size_of_optional_dtg) × (length x.old ≡ size_of_optional_dtg) }
    ensures { Into optional_dtg optional_dtg_octets TypedOptionalDtg (bits_in s.entry) at.0 result x.new }
{
    let (present, at) = read_flag(s, at)?;
    if present {
        store_mark(
            &mut x[in_optional_dtg::PRESENT..in_optional_dtg::DTG],
            present,
        );
        return read_dtg(s, at, &mut x[in_optional_dtg::DTG..in_optional_dtg::END]);
    }
    Ok(at)
}

// G7.
pub fn read_requests(s: Datagram, at: BitPlace, x: &mut [u8]) -> Step
    requires { (x.old ≡ zeros size_of_requests) × (length x.old ≡ size_of_requests) }
    ensures { Into requests requests_octets (λ v. Unit {0}) (bits_in s.entry) at.0 result x.new }
{
    let at = read_mark(
        s,
        at,
        &mut x[in_requests::MACHINE..in_requests::ACKNOWLEDGE],
    )?;
    let at = read_mark(s, at, &mut x[in_requests::ACKNOWLEDGE..in_requests::REPLY])?;
    read_mark(s, at, &mut x[in_requests::REPLY..in_requests::END])
}

pub fn read_optional_requests(s: Datagram, at: BitPlace, x: &mut [u8]) -> Step
    requires { (x.old ≡ zeros size_of_optional_requests) × (length x.old ≡ size_of_optional_requests) }
    ensures { Into optional_requests optional_requests_octets (λ v. Unit {0}) (bits_in s.entry) at.0 result x.new }
{
    let (present, at) = read_flag(s, at)?;
    if present {
        store_flag(
            &mut x[in_optional_requests::PRESENT..in_optional_requests::REQUESTS],
            present,
        );
        return read_requests(
            s,
            at,
            &mut x[in_optional_requests::REQUESTS..in_optional_requests::END],
        );
    }
    Ok(at)
}

pub fn read_times(s: Datagram, at: BitPlace, x: &mut [u8]) -> Step
    requires { (x.old ≡ zeros size_of_times) × (length x.old ≡ size_of_times) }
    ensures { Into times times_octets TypedTimes (bits_in s.entry) at.0 result x.new }
{
    let at = read_optional_stamp(s, at, &mut x[in_times::ORIGIN..in_times::PERISH])?;
    let at = read_optional_dtg(s, at, &mut x[in_times::PERISH..in_times::REQUESTS])?;
    read_optional_requests(s, at, &mut x[in_times::REQUESTS..in_times::END])
}
