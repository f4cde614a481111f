// Bit places and octet sizes, and fields of bits in octets: read and written by octet fragments, one
// step for each octet that a field touches. Most fields lie in one octet or two: these go without a loop.
#![tactic(auto)]

ghost use Rattle.std.specs.Prelude.{◌≡◌, ◌+◌, ◌-◌, ◌*◌, ◌/◌, ◌%◌, ◌^◌, ◌≤◌, ◌<◌, min, ◌++◌, length};
ghost use Rattle.bits.specs.Bits.{low_bits, bits_of, field, splice};
ghost use Rattle.bits.specs.Units.{whole_octets, datagram_limit};

// Document 01's place: a bit of a datagram, counted from its first bit, which is 0.
#[derive(Clone, Copy)]
pub struct BitPlace(pub usize);

// Document 01's size: a count of octets. It is another type than a place, so that neither can be
// handed to a function that asks for the other.
#[derive(Clone, Copy)]
pub struct OctetSize(pub usize);

// The one conversion from a place to a size: the whole octets that hold the bits before the place.
// Only a header's end is turned into a size.
pub fn whole_octets(end: BitPlace) -> OctetSize
    ensures { result.0 ≡ whole_octets end.0 }
{
    OctetSize(end.0.div_ceil(8))
}

// The octets of one datagram, no more than a datagram can hold.
#[derive(Clone, Copy)]
pub struct Datagram<'a> {
    pub octets: &'a [u8],
    ghost fits: { length octets.now ≤ datagram_limit },
}

impl<'a> Datagram<'a> {
    // The place behind the last bit.
    pub fn end(self) -> BitPlace
        ensures { result.0 ≡ 8 * length self.entry.octets.now }
    {
        BitPlace(8 * self.octets.len())
    }
}

// The n bits of x from bit b on.
fn fragment(x: u32, b: usize, n: usize) -> u32
    requires { (b < 32) × (n < 32) }
    ensures { result ≡ x / 2 ^ b % 2 ^ n }
{
    (x >> b) % (1u32 << n)
}

// x with f for its n bits from bit b on.
fn patched(x: u8, b: usize, n: usize, f: u32) -> u8
    requires { (b + n ≤ 8) × (f < 2 ^ n) }
    ensures { low_bits 8 result ≡ low_bits b x ++ (low_bits n f ++ low_bits (8 - (b + n)) (x / 2 ^ (b + n))) }
{
    let y = x as u32;
    let low = y % (1u32 << b);
    let high = y >> (b + n);
    (low + (f << b) + (high << (b + n))) as u8
}

// The number in the w bits of s from a place on. Each step takes the part of one octet that lies in
// the field and puts it above the parts before it.
fn read_long(s: &[u8], at: BitPlace, w: usize) -> u32
    requires { (at.0 + w ≤ 8 * length s.now) × (w ≤ 24) }
    ensures { result ≡ field s.now at.0 w }
{
    let k = at.0;
    let octet = k / 8;
    let skip = k % 8;
    let steps = (skip + w + 7) / 8;
    let mut number: u32 = 0;
    let mut done: usize = 0;
    for j in 0..steps {
        let b = (skip + done) % 8;
        let n = (8 - b).min(w - done);
        let f = fragment(s[octet + j] as u32, b, n);
        number += f << done;
        done += n;
    }
    number
}

// A field that lies in one octet. A field of no bits may stand behind the last octet: no octet is
// looked at for it.
fn read_one(s: &[u8], octet: usize, skip: usize, w: usize) -> u32
    requires { (8 * octet + skip + w ≤ 8 * length s.now) × (skip + w ≤ 8) }
    ensures { result ≡ field s.now (8 * octet + skip) w }
{
    if w == 0 {
        return 0;
    }
    fragment(s[octet] as u32, skip, w)
}

// A field that reaches into a second octet and no further: the part in the first octet, and the part
// in the second above it.
fn read_two(s: &[u8], octet: usize, skip: usize, w: usize) -> u32
    requires { (8 * octet + skip + w ≤ 8 * length s.now) × (skip < 8) × (8 < skip + w) × (skip + w ≤ 16) }
    ensures { result ≡ field s.now (8 * octet + skip) w }
{
    let n = 8 - skip;
    let low = fragment(s[octet] as u32, skip, n);
    let high = fragment(s[octet + 1] as u32, 0, w - n);
    low + (high << n)
}

// The number in the w bits of s from a place on, by the shortest way for the octets that they touch.
pub fn read_bits(s: &[u8], at: BitPlace, w: usize) -> u32
    requires { (at.0 + w ≤ 8 * length s.now) × (w ≤ 24) }
    ensures { result ≡ field s.now at.0 w }
{
    let k = at.0;
    let octet = k / 8;
    let skip = k % 8;
    if skip + w <= 8 {
        return read_one(s, octet, skip, w);
    }
    if skip + w <= 16 {
        return read_two(s, octet, skip, w);
    }
    read_long(s, at, w)
}

// Writes the w low bits of v from a place on, and leaves every other bit as it was. Each step puts
// the part of v that lies in one octet into that octet.
fn write_long(out: &mut [u8], at: BitPlace, w: usize, v: u32)
    requires { (at.0 + w ≤ 8 * length out.old) × (w ≤ 24) }
    ensures { bits_of out.new ≡ splice (bits_of out.old) at.0 (low_bits w v) }
{
    let k = at.0;
    let octet = k / 8;
    let skip = k % 8;
    let steps = (skip + w + 7) / 8;
    let mut done: usize = 0;
    for j in 0..steps {
        let b = (skip + done) % 8;
        let n = (8 - b).min(w - done);
        let f = fragment(v, done, n);
        let o = octet + j;
        out[o] = patched(out[o], b, n, f);
        done += n;
    }
}

// Writes a field that lies in one octet. A field of no bits may stand behind the last octet: no octet
// is touched for it.
fn write_one(out: &mut [u8], octet: usize, skip: usize, w: usize, v: u32)
    requires { (8 * octet + skip + w ≤ 8 * length out.old) × (skip + w ≤ 8) }
    ensures { bits_of out.new ≡ splice (bits_of out.old) (8 * octet + skip) (low_bits w v) }
{
    if w == 0 {
        return;
    }
    let f = fragment(v, 0, w);
    out[octet] = patched(out[octet], skip, w, f);
}

// Writes a field that reaches into a second octet and no further: the low part of v into the first
// octet, and the rest into the second.
fn write_two(out: &mut [u8], octet: usize, skip: usize, w: usize, v: u32)
    requires { (8 * octet + skip + w ≤ 8 * length out.old) × (skip < 8) × (8 < skip + w) × (skip + w ≤ 16) }
    ensures { bits_of out.new ≡ splice (bits_of out.old) (8 * octet + skip) (low_bits w v) }
{
    let n = 8 - skip;
    let low = fragment(v, 0, n);
    out[octet] = patched(out[octet], skip, n, low);
    let next = octet + 1;
    let high = fragment(v, n, w - n);
    out[next] = patched(out[next], 0, w - n, high);
}

// Writes the w low bits of v from a place on, and leaves every other bit as it was, by the shortest
// way for the octets that they touch.
pub fn write_bits(out: &mut [u8], at: BitPlace, w: usize, v: u32)
    requires { (at.0 + w ≤ 8 * length out.old) × (w ≤ 24) }
    ensures { bits_of out.new ≡ splice (bits_of out.old) at.0 (low_bits w v) }
{
    let k = at.0;
    let octet = k / 8;
    let skip = k % 8;
    if skip + w <= 8 {
        write_one(out, octet, skip, w, v);
        return;
    }
    if skip + w <= 16 {
        write_two(out, octet, skip, w, v);
        return;
    }
    write_long(out, at, w, v);
}
