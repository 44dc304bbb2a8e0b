// A staff number.
ghost use Rattle.std.specs.Prelude.{◌≡◌, ◌^◌, ◌<◌};

#[derive(Clone, Copy, PartialEq, Eq, PartialOrd, Ord, Debug)]
pub struct StaffNumber {
    number: u32,
    // In a proof a number has no width of its own.
    ghost fits: { number < 2 ^ 32 },
}

impl StaffNumber {
    pub fn new(number: u32) -> Self
        ensures { result.number ≡ number }
    {
        StaffNumber { number }
    }

    pub fn number(&self) -> u32
        ensures { result ≡ self.now.number }
    {
        self.number
    }
}
