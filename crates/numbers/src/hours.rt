// The quarter hours that a member of staff worked in a week.
ghost use Rattle.std.specs.Prelude.{◌≡◌, ◌^◌, ◌<◌};

#[derive(Clone, Copy, PartialEq, Eq, PartialOrd, Ord, Debug)]
pub struct Hours {
    week: u16,
    quarters: u16,
    // In a proof a number has no width of its own.
    ghost week_fits: { week < 2 ^ 16 },
    ghost quarters_fits: { quarters < 2 ^ 16 },
}

impl Hours {
    pub fn new(week: u16, quarters: u16) -> Self
        ensures week { result.week ≡ week }
        ensures quarters { result.quarters ≡ quarters }
    {
        Hours { week, quarters }
    }

    pub fn week(&self) -> u16
        ensures { result ≡ self.now.week }
    {
        self.week
    }

    pub fn quarters(&self) -> u16
        ensures { result ≡ self.now.quarters }
    {
        self.quarters
    }
}
