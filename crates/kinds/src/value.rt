// A kind of value, by its meaning.
ghost use Rattle.std.specs.Prelude.{◌≡◌, ℕ, ◌<◌, length, slice_index};
ghost use Rattle.kinds.specs.Codes.{Reads};
ghost use Rattle.kinds.specs.Kinds.{ValueKind, ValueLaws};
ghost use Rattle.kinds.specs.Records.{read_answer};

use crate::code::NoCode;

pub trait Value: Sized + Copy {
    ghost kind: { ValueKind Self };

    // By its number an image tells the kind: a rule of the project.
    fn kind_number() -> u8
        ensures { result ≡ kind.number };

    fn code_len(&self) -> usize
        ensures { result ≡ length (kind.code self.now) };

    // The byte of the code at i. Only a writer of codes calls it, within the code.
    fn code_at(&self, i: usize) -> u8
        requires { i < length (kind.code self.now) }
        ensures { result ≡ slice_index (kind.code self.now) i };

    fn join(self, other: Self) -> Self
        ensures { result ≡ kind.join self other };

    // The value whose code stands at the front of the bytes, with the length of that code.
    fn read(bytes: &[u8]) -> Result<(Self, usize), NoCode>
        ensures answer { result ≡ read_answer (kind.front bytes.now) }
        ensures exact { Reads kind.code bytes.now result };

    ghost lawful: { ValueLaws kind };
}
