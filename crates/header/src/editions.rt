// What the versions of the header differ in.
ghost use Rattle.std.specs.Prelude.{◌≡◌, eqb};

// Version 1 has no message standard version, nor the presence bit in front of it.
pub fn lacks_standard_version(version: u32) -> bool
    ensures { result ≡ eqb version 1 }
{
    version == 1
}
