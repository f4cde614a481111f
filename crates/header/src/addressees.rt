// How many addressees may stand in G3 behind the first.
ghost use Rattle.std.specs.Prelude.{◌≡◌, ◌-◌};

// One less, or 0.
pub fn one_less(n: usize) -> usize
    ensures { result ≡ n - 1 }
{
    n.saturating_sub(1)
}
