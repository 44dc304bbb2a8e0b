// A kind of key, by its meaning.
//
// `Value` has four methods like those here. A trait above both would need code and front as ghost members of its own, tied to `kind` by laws,
// and each clause that names `kind` would name them beside it: no plainer.
ghost use Rattle.std.specs.Prelude.{◌≡◌, ℕ, ◌<◌, length, slice_index};
ghost use Rattle.kinds.specs.Codes.{Reads};
ghost use Rattle.kinds.specs.Kinds.{KeyKind, KeyLaws};
ghost use Rattle.kinds.specs.Records.{read_answer};

use crate::code::NoCode;
use std::cmp::Ordering;

pub trait Key: Sized + Copy {
    // What lent memory holds of a key: plain data, which need not be a key's.
    type Row: Copy;

    ghost kind: { KeyKind Self Self.Row };

    // By its number an image tells the kind: a rule of the project.
    fn kind_number() -> u8
        ensures { result ≡ kind.number };

    fn code_len(&self) -> usize
        ensures { result ≡ length (kind.code self.now) };

    // The byte of the code at i. Only a writer of codes calls it, within the code.
    fn code_at(&self, i: usize) -> u8
        requires { i < length (kind.code self.now) }
        ensures { result ≡ slice_index (kind.code self.now) i };

    // No bound `Ord`: it would ask more of whoever writes a kind.
    fn compare(&self, other: &Self) -> Ordering
        ensures { result ≡ kind.order self.now other.now };

    fn hash(&self, seed: u32) -> u32
        ensures { result ≡ kind.hash seed self.now };

    fn to_row(&self) -> Self::Row
        ensures { result ≡ kind.row self.now };

    fn from_row(plain: Self::Row) -> Option<Self>
        ensures { result ≡ kind.key plain };

    // The key whose code stands at the front of the bytes, with the length of that code.
    fn read(bytes: &[u8]) -> Result<(Self, usize), NoCode>
        ensures answer { result ≡ read_answer (kind.front bytes.now) }
        ensures exact { Reads kind.code bytes.now result };

    ghost lawful: { KeyLaws kind };
}
