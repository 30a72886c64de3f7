// Limits on the numbers of a list.
ghost use Rattle.std.specs.Prelude.{◌≡◌};
ghost use Rattle.sharing.specs.Limits.{above};

// Whether some number is above the limit.
pub fn any_above(limit: u64, numbers: &[u64]) -> bool
    ensures { result ≡ above limit numbers.now }
{
    numbers.iter().any(|number| *number > limit)
}
