// Commands on a map, and their answers. What they mean is in specs/.
#![tactic(auto)]

ghost use Rattle.maps.specs.Commands.{row_of};
ghost use Rattle.std.specs.Prelude.{◌≡◌};

// A command on the row of a key. A sheet is a slice of them.
#[derive(Clone, Copy, PartialEq, Eq, Debug)]
pub enum Command<R, V> {
    Put(R, V),
    Drop(R),
    Get(R),
}

#[derive(Clone, Copy, PartialEq, Eq, Debug)]
pub enum Answer<V> {
    New(V),
    Joined(V),
    Full,
    Dropped(V),
    Absent,
    Found(V),
}

impl<R: Copy, V: Copy> Command<R, V> {
    pub fn row(&self) -> R
        ensures { result ≡ row_of self.now }
    {
        match self {
            Command::Put(row, _) | Command::Drop(row) | Command::Get(row) => *row,
        }
    }
}
