// A date-time group, alone and with its extension.
ghost use Rattle.std.specs.Prelude.{◌≡◌, ◌+◌};
ghost use Rattle.codec.specs.Writes.{Placed};

use crate::part::End;
use bits::BitPlace;
use header::layout::{DAY, EXTENSION, HOUR, MINUTE, MONTH, SECOND, YEAR};
use header::{Dtg, Stamp};
use leaves::numbers::end_optional;
use number::end_number;
use record_octets::in_stamp;

// Its bits do not depend on its value.
pub fn end_dtg(at: BitPlace) -> BitPlace
    requires { Placed at.0 33 }
    ensures { result.0 ≡ at.0 + 33 }
{
    let at = end_number(at, YEAR);
    let at = end_number(at, MONTH);
    let at = end_number(at, DAY);
    let at = end_number(at, HOUR);
    let at = end_number(at, MINUTE);
    end_number(at, SECOND)
}

impl End for Dtg {
    fn end(at: BitPlace, _x: &[u8]) -> BitPlace {
        end_dtg(at)
    }
}

impl End for Stamp {
    fn end(at: BitPlace, x: &[u8]) -> BitPlace {
        let at = Dtg::end(at, &x[in_stamp::DTG..in_stamp::EXTENSION]);
        end_optional(at, EXTENSION, &x[in_stamp::EXTENSION..in_stamp::END])
    }
}
