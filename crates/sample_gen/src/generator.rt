//! A generator of numbers.
ghost use Rattle.std.specs.Prelude.{◌≡◌};
ghost use Rattle.sample_gen.specs.Samples.{next_state};

/// Returns the number after `x` of a linear congruential generator, with the multiplier, increment
/// and modulus of ISO C's example of `rand`.
pub fn next_state(x: u32) -> u32
    ensures { result ≡ next_state x }
{
    ((x as u64 * 1103515245 + 12345) % 2147483648) as u32
}
