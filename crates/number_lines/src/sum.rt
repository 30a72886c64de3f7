// The sum of a list.
ghost use Rattle.std.specs.Prelude.{◌≡◌, ◌-◌, ◌^◌, min, sum};

// As far as 64 bits count.
pub fn sum_of(numbers: &[u64]) -> u64
    ensures { result ≡ min (sum numbers.now) (2 ^ 64 - 1) }
{
    numbers
        .iter()
        .fold(0, |sum, number| sum.saturating_add(*number))
}
