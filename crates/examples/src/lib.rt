// Worked examples: some proved by one theorem over their table, others run as tests.
#![tactic(auto)]

ghost use Rattle.examples.specs.Examples.{Examples, cases};
ghost use Rattle.std.specs.Prelude.{◌≡◌, length};

#[cfg(test)]
mod kinds_tests;

// How many worked examples the table has: 10 of homes, cells and hours, and 5 of images, sums, and text keys and their hash. All of them hold, and `ab` and `AB` make one key.
pub fn examples_hold() -> usize
    ensures hold { Examples }
    ensures count { result ≡ length cases }
{
    10 + 5
}
