// The field functions for the host's benchmark.
#![tactic(auto)]

ghost use Rattle.std.specs.Prelude.{◌≡◌, ◌+◌, ◌*◌, ◌≤◌, length};
ghost use Rattle.bits.specs.Bits.{low_bits, bits_of, field, splice};

use bits::BitPlace;

#[unsafe(no_mangle)]
pub extern "C" fn field_bench_read(s: &[u8], at: usize, w: usize) -> u32
    requires { (at + w ≤ 8 * length s.now) × (w ≤ 24) }
    ensures { result ≡ field s.now at w }
{
    bits::read_bits(s, BitPlace(at), w)
}

#[unsafe(no_mangle)]
pub extern "C" fn field_bench_write(out: &mut [u8], at: usize, w: usize, v: u32)
    requires { (at + w ≤ 8 * length out.old) × (w ≤ 24) }
    ensures { bits_of out.new ≡ splice (bits_of out.old) at (low_bits w v) }
{
    bits::write_bits(out, BitPlace(at), w, v)
}
