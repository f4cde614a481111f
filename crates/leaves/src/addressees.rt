// What G2 leaves for G3: both together have at most 16 entries.
ghost use Rattle.std.specs.Prelude.{◌≡◌, length};
ghost use Rattle.header.specs.Table.{room_behind};
ghost use Rattle.record_octets.specs.Record.{size_of_optional_addresses, optional_addresses_in};

use cells::{load_flag, load_word};
use record_octets::{in_addresses, in_optional_addresses};

pub fn room_behind(x: &[u8]) -> usize
    requires { length x.now ≡ size_of_optional_addresses }
    ensures { result ≡ room_behind (optional_addresses_in x.now) }
{
    let present = load_flag(&x[in_optional_addresses::PRESENT..in_optional_addresses::ADDRESSES]);
    if !present {
        return 16;
    }
    let held = &x[in_optional_addresses::ADDRESSES..in_optional_addresses::END];
    let count = load_word(&held[in_addresses::COUNT..in_addresses::END]) as usize;
    16usize.saturating_sub(count)
}
