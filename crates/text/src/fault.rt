// Why bytes make no text key.
ghost use Rattle.text.specs.Faults.{told};
ghost use Rattle.std.specs.Prelude.{◌≡◌};

#[derive(Clone, Copy, PartialEq, Eq, Debug, Drop)]
pub enum TextFault {
    // They are not 1 to 24.
    Length,
    // The place, from 1, of the first byte that is not allowed.
    NotAllowed(usize),
}

// A refusal has a number and a place: a rule of the project.
impl TextFault {
    pub fn number(self) -> u8
        ensures { result ≡ (told self).0 }
    {
        14
    }

    pub fn place(self) -> usize
        ensures { result ≡ (told self).1 }
    {
        match self {
            TextFault::Length => 0,
            TextFault::NotAllowed(place) => place,
        }
    }
}
