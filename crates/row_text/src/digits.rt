// Octets and numbers in decimal.
ghost use Rattle.std.specs.Prelude.{◌≡◌, [], ◌∷◌, ◌+◌, ◌≤◌, ◌<◌, length};
ghost use Rattle.row_text.specs.Text.{decimal, two_digits};
ghost use Rattle.row_text.specs.Puts.{Puts};

use bits::OctetSize;

pub fn put_octet(out: &mut [u8], at: OctetSize, c: u8) -> OctetSize
    requires { at.0 + 1 ≤ length out.old }
    ensures { Puts (c ∷ []) out.old out.new at.0 result.0 }
{
    let place = at.0;
    out[place] = c;
    OctetSize(place + 1)
}

pub fn put_octets(out: &mut [u8], at: OctetSize, s: &[u8]) -> OctetSize
    requires { at.0 + length s.now ≤ length out.old }
    ensures { Puts s.now out.old out.new at.0 result.0 }
{
    let mut place = at;
    for &c in s {
        place = put_octet(out, place, c);
    }
    place
}

pub fn decimal_length(n: u32) -> OctetSize
    ensures { (result.0 ≡ length (decimal n)) × (result.0 ≤ 10) }
{
    let mut rest = n;
    let mut size = OctetSize(1);
    while 10 <= rest {
        rest /= 10;
        size = OctetSize(size.0 + 1);
    }
    size
}

// The last digit is what a division by ten leaves, so the digits are put from the right, behind the
// place that their count tells.
pub fn put_decimal(out: &mut [u8], at: OctetSize, n: u32) -> OctetSize
    requires { at.0 + length (decimal n) ≤ length out.old }
    ensures { Puts (decimal n) out.old out.new at.0 result.0 }
{
    let first = at.0;
    let size = decimal_length(n);
    let end = first + size.0;
    let mut place = end;
    let mut rest = n;
    while 10 <= rest {
        place -= 1;
        out[place] = (48 + rest % 10) as u8;
        rest /= 10;
    }
    out[first] = (48 + rest) as u8;
    OctetSize(end)
}

pub fn put_two_digits(out: &mut [u8], at: OctetSize, n: u32) -> OctetSize
    requires { at.0 + 2 ≤ length out.old }
    ensures { Puts (two_digits n) out.old out.new at.0 result.0 }
{
    let at = put_octet(out, at, (48 + n / 10 % 10) as u8);
    put_octet(out, at, (48 + n % 10) as u8)
}
