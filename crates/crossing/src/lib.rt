// What the crates for other languages share: a number as a narrower type takes it. The laws on lent spaces that are filled from their start are in
// proofs/.
#![tactic(auto)]

ghost use Rattle.std.specs.Prelude.{ℕ, ◌≡◌, Result};
ghost use Rattle.std.specs.Result.{result_unwrap_or};
ghost use Rattle.crossing.specs.Capped.{capped};
ghost use Rattle.crossing.specs.Narrow.{taken};

// An unsigned type that holds some of the numbers of 64 bits.
pub trait Narrow: TryFrom<u64, Error: Drop> + Drop {
    // The number that a value is.
    ghost number: { Self → ℕ };

    // The most that the type holds.
    ghost MOST: { Self };

    const MOST: Self;

    // A number becomes what `try_from` gives of it, or else the most.
    ghost takes: { (n : ℕ) (r : Result Self Self.Error) → Self.try_from_gives n r → number (result_unwrap_or r MOST) ≡ capped (number MOST) n };
}

impl Narrow for u8 {
    ghost number = { λ n. n };

    ghost MOST = { 255 };

    ghost takes = { taken 255 };

    const MOST: u8 = u8::MAX;
}

impl Narrow for u16 {
    ghost number = { λ n. n };

    ghost MOST = { 65535 };

    ghost takes = { taken 65535 };

    const MOST: u16 = u16::MAX;
}

impl Narrow for u32 {
    ghost number = { λ n. n };

    ghost MOST = { 4294967295 };

    ghost takes = { taken 4294967295 };

    const MOST: u32 = u32::MAX;
}

// A number in such a type. What the type does not hold becomes the most that it holds: the definition `capped` has it so, and who takes the number refuses
// it, in its place among the tests.
pub fn capped<T: Narrow>(n: u64) -> T
    ensures { T.number result ≡ capped (T.number T.MOST) n }
{
    T::try_from(n).unwrap_or(T::MOST)
}
