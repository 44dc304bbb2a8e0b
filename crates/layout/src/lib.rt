//! The layout of a map in cells: definitions in specs/, theorems in proofs/, and no more code than names them.
#![tactic(auto)]

ghost use Rattle.std.specs.Prelude.{◌^◌};
ghost use Rattle.layout.specs.Theorems.{Largest, Theorems};

/// The largest count of records that cells are laid out for. Its contract names the theorems on maps,
/// capacities and layouts, for any records `R` and keys `Q`, up to that count, and under hashes of 32 bits.
pub fn most_records<R, Q>() -> usize
    ensures laws { Theorems R Q result (2 ^ 32) }
    ensures largest { Largest result }
{
    768
}
