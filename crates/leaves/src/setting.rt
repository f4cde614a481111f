// What a record's blocks are judged by beside themselves: its version, and what the rules look at.
ghost use Rattle.std.specs.Prelude.{◌≡◌, length};
ghost use Rattle.header.specs.Rules.{setting_of};
ghost use Rattle.record_octets.specs.Record.{size_of_front, front_in, size_of_header, header_in};

use cells::{load_flag, load_word};
use header::Setting;
use record_octets::{in_blocks, in_front, in_header, in_optional_address, in_optional_number};

// The version that stands first among a record's fields up to G3.
pub fn front_version(x: &[u8]) -> u32
    requires { length x.now ≡ size_of_front }
    ensures { result ≡ (front_in x.now).version }
{
    load_word(&x[in_front::VERSION..in_front::COMPRESSION])
}

pub fn has_compression(h: &[u8]) -> bool
    requires { length h.now ≡ size_of_header }
    ensures { result ≡ (header_in h.now).front.compression.present }
{
    let front = &h[in_header::FRONT..in_header::SIZED];
    let compression = &front[in_front::COMPRESSION..in_front::ORIGINATOR];
    load_flag(&compression[in_optional_number::PRESENT..in_optional_number::VALUE])
}

// G1.
pub fn has_originator(h: &[u8]) -> bool
    requires { length h.now ≡ size_of_header }
    ensures { result ≡ (header_in h.now).front.originator.present }
{
    let front = &h[in_header::FRONT..in_header::SIZED];
    let originator = &front[in_front::ORIGINATOR..in_front::RECIPIENTS];
    load_flag(&originator[in_optional_address::PRESENT..in_optional_address::ADDRESS])
}

pub fn block_count(h: &[u8]) -> u32
    requires { length h.now ≡ size_of_header }
    ensures { result ≡ (header_in h.now).blocks.count }
{
    let blocks = &h[in_header::BLOCKS..in_header::END];
    load_word(&blocks[in_blocks::COUNT..in_blocks::END])
}

pub fn setting_of(h: &[u8]) -> Setting
    requires { length h.now ≡ size_of_header }
    ensures { result ≡ setting_of (header_in h.now) }
{
    let originator = has_originator(h);
    let compression = has_compression(h);
    let sized = load_flag(&h[in_header::SIZED..in_header::BLOCKS]);
    let count = block_count(h);
    Setting {
        originator,
        compression,
        sized,
        several: 2 <= count,
    }
}
