// A key where it lies in lent octets: its first refusal, and which of two comes first.
ghost use Rattle.std.specs.Prelude.{◌≡◌, length};
ghost use Rattle.codec.specs.Refusals.{check_no};
ghost use Rattle.order.specs.Values.{comparison_of, moment_of, key_of, by_moment, by_key, key_fault};
ghost use Rattle.record_octets.specs.Record.{size_of_stamp, stamp_in};
ghost use Rattle.table_octets.specs.Table.{size_of_key, key_in};

use checker::address::check_address;
use checker::dtg::check_stamp;
use codec::Fault;
use leaves::moment::load_stamp;
use order::{compare_addresses, compare_stamps};
use std::cmp::Ordering;
use table_octets::in_key;

// The first refusal of a key.
pub fn check_key(k: &[u8]) -> Result<(), Fault>
    requires { length k.now ≡ size_of_key }
    ensures { check_no result ≡ key_fault (key_in k.now) }
{
    let address = check_address(&k[in_key::ADDRESS..in_key::STAMP]);
    let stamp = check_stamp(&k[in_key::STAMP..in_key::END]);
    address.and(stamp)
}

// Stamps are 32 octets, and are loaded.
fn compare_moments(a: &[u8], b: &[u8]) -> Ordering
    requires { (length a.now ≡ size_of_stamp) × (length b.now ≡ size_of_stamp) }
    ensures { comparison_of result ≡ by_moment (moment_of (stamp_in a.now)) (moment_of (stamp_in b.now)) }
{
    compare_stamps(load_stamp(a), load_stamp(b))
}

// By the originator. Only where it is the same are the stamps looked at.
pub fn compare_keys(a: &[u8], b: &[u8]) -> Ordering
    requires { (length a.now ≡ size_of_key) × (length b.now ≡ size_of_key) }
    ensures { comparison_of result ≡ by_key (key_of (key_in a.now)) (key_of (key_in b.now)) }
{
    let addresses = compare_addresses(
        &a[in_key::ADDRESS..in_key::STAMP],
        &b[in_key::ADDRESS..in_key::STAMP],
    );
    addresses.then_with(|| {
        compare_moments(
            &a[in_key::STAMP..in_key::END],
            &b[in_key::STAMP..in_key::END],
        )
    })
}
