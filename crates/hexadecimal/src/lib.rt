// A line of hexadecimal digits, and the octets that it is.
#![tactic(auto)]

ghost use Rattle.std.specs.Prelude.{◌≡◌, true, ◌+◌, ◌*◌, ◌%◌, ◌≤◌, nat_le, length, is_some, unwrap_or};
ghost use Rattle.hexadecimal.specs.Lines.{value_of, all_digits, octets_in, is_line, octets_of, to_tell, told, output_after};

use bits::OctetSize;

// A digit's value; no other character has one.
#[tactic(auto, using(std::proofs::lemmas::Bool::Decides::nat_tests), unfolding(crate::specs::Lines::digit_of, crate::specs::Lines::or_sixteen))]
fn value_of(c: u8) -> Option<u8>
    ensures value { unwrap_or result 16 ≡ value_of c }
    ensures variant { is_some result ≡ nat_le (value_of c) 15 }
{
    match c {
        b'0'..=b'9' => Some(c - b'0'),
        b'A'..=b'F' => Some(c - b'A' + 10),
        b'a'..=b'f' => Some(c - b'a' + 10),
        _ => None,
    }
}

// Whether every character is a digit.
fn all_digits(line: &[u8]) -> bool
    ensures { result ≡ all_digits line.now }
{
    line.iter().all(|&c| value_of(c).is_some())
}

// Whether a line is a datagram: at most 16,384 characters, two for each octet, all digits.
fn is_line(line: &[u8]) -> bool
    ensures { result ≡ is_line line.now }
{
    line.len() <= 16384 && line.len() % 2 == 0 && all_digits(line)
}

// The octet of two digits, the left one its upper half; a character that is no digit counts as 0.
fn octet_of(left: u8, right: u8) -> u8
    ensures { result ≡ value_of left % 16 * 16 + value_of right % 16 }
{
    let high = value_of(left).unwrap_or(0);
    let low = value_of(right).unwrap_or(0);
    high * 16 + low
}

// Puts the octets of a line to the output's beginning.
fn put_line(line: &[u8], out: &mut [u8]) -> OctetSize
    requires { (is_line line.now ≡ true) × (8192 ≤ length out.old) }
    ensures { (result.0 ≡ length (octets_in line.now)) × (out.new ≡ output_after (octets_of line.now) out.old) }
{
    let n = line.len() / 2;
    for i in 0..n {
        out[i] = octet_of(line[2 * i], line[2 * i + 1]);
    }
    OctetSize(n)
}

// Reads a line without its line feed: how many octets it is, or none where it is skipped. Skipped, the
// output is as it was; otherwise it begins with the line's octets, and behind them it is as it was.
pub fn line_octets(line: &[u8], out: &mut [u8]) -> Option<OctetSize>
    requires { 8192 ≤ length out.old }
    ensures { (told result ≡ to_tell (octets_of line.now)) × (out.new ≡ output_after (octets_of line.now) out.old) }
{
    if !is_line(line) {
        return None;
    }
    Some(put_line(line, out))
}
