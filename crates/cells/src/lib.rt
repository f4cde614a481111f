// Lent octets: numbers of four octets, flags, parts, and octets moved and copied where they lie. Each function of a thing
// takes the part of the octets that is that thing. Nothing here knows of records or tables.
#![tactic(auto)]

ghost use Rattle.std.specs.Prelude.{◌≡◌, ◌+◌, ◌-◌, ◌*◌, ◌<◌, ◌≤◌, length, drop};
ghost use Rattle.std.proofs.Math.Seq.{paste};
ghost use Rattle.cells.specs.Cells.{part, zeros, word_in, word_octets, flag_in, flag_octets, mark_octets};

#[tactic(auto, unfolding(crate::specs::Cells::word_in))]
pub fn load_word(b: &[u8]) -> u32
    requires { length b.now ≡ 4 }
    ensures { result ≡ word_in b.now }
{
    u32::from_le_bytes([b[0], b[1], b[2], b[3]])
}

#[tactic(auto, unfolding(crate::specs::Cells::word_octets))]
pub fn store_word(b: &mut [u8], v: u32)
    requires { length b.old ≡ 4 }
    ensures { b.new ≡ word_octets v }
{
    b.copy_from_slice(&v.to_le_bytes());
}

// A flag, whatever lies behind it.
#[tactic(auto, unfolding(crate::specs::Cells::flag_in))]
pub fn load_flag(b: &[u8]) -> bool
    requires { 1 ≤ length b.now }
    ensures { result ≡ flag_in b.now }
{
    b[0] != 0
}

#[tactic(auto, using(crate::proofs::Stores::flagged))]
pub fn store_flag(b: &mut [u8], x: bool)
    requires { length b.old ≡ 1 }
    ensures { b.new ≡ flag_octets x }
{
    b[0] = x as u8;
}

// A flag with three octets behind it that are not used.
#[tactic(auto, using(crate::proofs::Stores::marked))]
pub fn store_mark(b: &mut [u8], x: bool)
    requires { length b.old ≡ 4 }
    ensures { b.new ≡ mark_octets x }
{
    b.copy_from_slice(&[x as u8, 0, 0, 0]);
}

// The characters of a text.
pub fn store_chars(b: &mut [u8], chars: [u8; 64])
    requires { length b.old ≡ 64 }
    ensures { b.new ≡ chars }
{
    b.copy_from_slice(&chars);
}

// All of them 0.
pub fn clear(b: &mut [u8])
    ensures { b.new ≡ zeros (length b.old) }
{
    b.fill(0);
}

// So many octets from a place on.
pub fn between(s: &[u8], at: usize, n: usize) -> &[u8]
    requires { at + n ≤ length s.now }
    ensures { result.now ≡ part at n s.now }
{
    &s[at..at + n]
}

// One of things of n octets each, counted from 0.
pub fn entry(s: &[u8], i: usize, n: usize) -> &[u8]
    requires { i * n + n ≤ length s.now }
    ensures { (result.now ≡ part (i * n) n s.now) × (length result.now ≡ n) }
{
    between(s, i * n, n)
}

// The octets up to a place become those so many further on, the first one first.
pub fn move_down(t: &mut [u8], from: usize, to: usize, by: usize)
    requires { (from ≤ to) × (to + by ≤ length t.old) }
    ensures { t.new ≡ paste t.old from (drop (from + by) t.old) (to - from) }
{
    t.copy_within(from + by..to + by, from);
}

// The octets from a place up to another go so many further on, the last one first: octet by octet, since of the library's copies
// of any length the compiler makes calls of `memmove`, which a host's program need not have.
pub fn move_up(t: &mut [u8], from: usize, to: usize, by: usize)
    requires { (from ≤ to) × (to + by ≤ length t.old) }
    ensures { t.new ≡ paste t.old (from + by) (drop from t.old) (to - from) }
{
    for k in (from..to).rev() {
        t[k + by] = t[k];
    }
}

// So many octets of another slice, put in from a place on: octet by octet, for the same reason.
pub fn copy(t: &mut [u8], to: usize, s: &[u8], from: usize, n: usize)
    requires { (to + n ≤ length t.old) × (from + n ≤ length s.now) }
    ensures { t.new ≡ paste t.old to (drop from s.now) n }
{
    for i in 0..n {
        t[to + i] = s[from + i];
    }
}
