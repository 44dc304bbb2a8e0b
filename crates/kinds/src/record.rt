// A key with its value, and its code: the key's, then the value's.
ghost use Rattle.std.specs.Prelude.{◌≡◌, ℕ, ◌<◌, length, slice_index};
ghost use Rattle.kinds.specs.Codes.{Reads, CodeLaws};
ghost use Rattle.kinds.specs.Records.{read_answer, record_code, record_front, write_answer, after_write};

use crate::code::{NoCode, NoRoom};
use crate::key::Key;
use crate::value::Value;

// A key, or the row of one, with its value.
#[derive(Clone, Copy, PartialEq, Eq, Debug)]
pub struct Record<A, V> {
    pub key: A,
    pub value: V,
}

impl<K: Key, V: Value> Record<K, V> {
    pub fn code_len(&self) -> usize
        ensures { result ≡ length (record_code K.Key.kind V.Value.kind self.now) }
    {
        self.key.code_len() + self.value.code_len()
    }

    fn code_at(&self, i: usize) -> u8
        requires { i < length (record_code K.Key.kind V.Value.kind self.now) }
        ensures { result ≡ slice_index (record_code K.Key.kind V.Value.kind self.now) i }
    {
        let n = self.key.code_len();
        if i < n {
            self.key.code_at(i)
        } else {
            self.value.code_at(i - n)
        }
    }

    // Writes the code over bytes as many as it has.
    fn fill(&self, out: &mut [u8])
        requires { length out.old ≡ length (record_code K.Key.kind V.Value.kind self.now) }
        ensures { out.new ≡ record_code K.Key.kind V.Value.kind self.now }
    {
        for (i, byte) in out.iter_mut().enumerate() {
            *byte = self.code_at(i);
        }
    }

    // Writes the code into `out` from `at` on, and gives the place behind it. Where it does not fit, nothing is written.
    pub fn write(&self, out: &mut [u8], at: usize) -> Result<usize, NoRoom>
        ensures answer { result ≡ write_answer out.old at (record_code K.Key.kind V.Value.kind self.now) }
        ensures after { out.new ≡ after_write out.old at (record_code K.Key.kind V.Value.kind self.now) }
    {
        let n = self.code_len();
        let end = at.checked_add(n).ok_or(NoRoom)?;
        if out.len() < end {
            return Err(NoRoom);
        }
        self.fill(&mut out[at..end]);
        Ok(end)
    }

    // The record as lent memory holds it. No `From`: where a key is its own row, it would be a second one from a type to itself.
    pub fn to_row(&self) -> Record<K::Row, V>
        ensures { result ≡ record { key = K.Key.kind.row self.now.key; value = self.now.value } }
    {
        Record {
            key: self.key.to_row(),
            value: self.value,
        }
    }

    // The record whose code stands at the front of the bytes, with the length of that code.
    pub fn read(bytes: &[u8]) -> Result<(Record<K, V>, usize), NoCode>
        ensures answer { result ≡ read_answer (record_front K.Key.kind V.Value.kind bytes.now) }
        ensures exact { Reads (record_code K.Key.kind V.Value.kind) bytes.now result }
        ensures lawful { CodeLaws 35 (record_code K.Key.kind V.Value.kind) (record_front K.Key.kind V.Value.kind) }
    {
        let (key, n) = K::read(bytes)?;
        let (value, m) = V::read(&bytes[n..])?;
        Ok((Record { key, value }, n + m))
    }
}
