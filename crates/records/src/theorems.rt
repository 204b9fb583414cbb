// Theorems of the definitions, each the contract of a small function, so that the crate fails without its proof.
ghost use Rattle.std.specs.Prelude.{◌≡◌};
ghost use Rattle.records.specs.Canonical.{OneNumber};
ghost use Rattle.records.specs.Counts.{Counted};

// The computed number of different parts is the number of different parts.
pub fn counting_stands() -> u8
    ensures { (result ≡ 0) × Counted }
{
    0
}

// Two lawful handles of a table that was started under an algebra and have the same signal are one.
pub fn one_number_stands() -> u8
    ensures { (result ≡ 1) × OneNumber }
{
    1
}
