// The lines that the program prints.
ghost use Rattle.lines.specs.Output.{text_of};
ghost use Rattle.std.specs.Prelude.{Some};

use std::fmt;

#[derive(Clone, Copy, Debug, PartialEq, Eq)]
pub enum Reply {
    New(u16),
    Joined(u16),
    Full,
    Dropped(u16),
    Absent,
    Found(u16),
    Sealed(usize),
    // By its number, which is what is printed: a rule of the project.
    Refused(u8),
    Bad,
}

impl fmt::Display for Reply {
    ghost output = { λ r. Some (text_of r) };

    fn fmt<W: fmt::Write>(&self, f: &mut fmt::Formatter<W>) -> fmt::Result {
        match self {
            Reply::New(v) => write!(f, "new {v}"),
            Reply::Joined(v) => write!(f, "joined {v}"),
            Reply::Full => write!(f, "full"),
            Reply::Dropped(v) => write!(f, "dropped {v}"),
            Reply::Absent => write!(f, "absent"),
            Reply::Found(v) => write!(f, "found {v}"),
            Reply::Sealed(count) => write!(f, "sealed {count}"),
            Reply::Refused(number) => write!(f, "refused {number}"),
            Reply::Bad => write!(f, "bad line"),
        }
    }
}
