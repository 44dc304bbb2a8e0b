// What lent memory holds of a text key: plain data, which need not be a key's. Nothing here knows of letters.
ghost use Rattle.std.specs.Prelude.{◌≡◌, ◌<◌, ◌≤◌, IsTrue, length, slice_index};
ghost use Rattle.std.specs.List.{list_all};
ghost use Rattle.text.specs.Rows.{is_zero, right_length, row_text, row_code, row_order, row_hash, row_front};
ghost use Rattle.text.specs.Words.{unpacked, packed};

use crate::fnv::fnv1a;
use std::cmp::Ordering;

// The length, and 24 bytes in three words, of each word the highest byte first: that they lie in words is a rule of the
// project.
#[derive(Clone, Copy, PartialEq, Eq, Debug)]
pub struct TextRow {
    pub len: u8,
    pub head: u64,
    pub middle: u64,
    pub tail: u64,
}

// Whether a text may have so many bytes.
pub(crate) fn is_length(n: usize) -> bool
    ensures value { result ≡ right_length n }
    ensures bounds { IsTrue result → (1 ≤ n) × (n ≤ 24) }
{
    (1..=24).contains(&n)
}

// Whether all bytes are zeros.
pub(crate) fn all_zero(bytes: &[u8]) -> bool
    ensures { result ≡ list_all is_zero bytes.now }
{
    bytes.iter().all(|byte| *byte == 0)
}

impl TextRow {
    // The row of a text, zeros behind its end.
    pub(crate) fn pack(text: &[u8]) -> TextRow
        requires { length text.now ≤ 24 }
        ensures { result ≡ packed text.now }
    {
        let mut bytes = [0; 24];
        bytes[..text.len()].copy_from_slice(text);
        let (words, _) = bytes.as_chunks::<8>();
        TextRow {
            len: text.len() as u8,
            head: u64::from_be_bytes(words[0]),
            middle: u64::from_be_bytes(words[1]),
            tail: u64::from_be_bytes(words[2]),
        }
    }

    // The 24 bytes that lie in the words.
    pub fn bytes(&self) -> [u8; 24]
        ensures { result ≡ unpacked self.now }
    {
        let mut bytes = [0; 24];
        bytes[..8].copy_from_slice(&self.head.to_be_bytes());
        bytes[8..16].copy_from_slice(&self.middle.to_be_bytes());
        bytes[16..].copy_from_slice(&self.tail.to_be_bytes());
        bytes
    }

    // How many of the bytes are the text's: no more than there are, whatever a plain row says.
    pub(crate) fn text_len(&self) -> usize
        ensures { result ≡ length (row_text self.now) }
    {
        usize::from(self.len).min(24)
    }

    // The byte of the code at i: the length, then the text.
    pub(crate) fn code_at(&self, i: usize) -> u8
        requires { i < length (row_code self.now) }
        ensures { result ≡ slice_index (row_code self.now) i }
    {
        match i {
            0 => self.len,
            _ => self.bytes()[i - 1],
        }
    }

    // Byte by byte, a beginning before its continuation.
    pub(crate) fn compare(&self, other: &TextRow) -> Ordering
        ensures { result ≡ row_order self.now other.now }
    {
        let these = self.bytes();
        let those = other.bytes();
        these[..self.text_len()].cmp(&those[..other.text_len()])
    }

    // FNV-1a of the text, without its length.
    pub(crate) fn hash(&self, seed: u32) -> u32
        ensures { result ≡ row_hash seed self.now }
    {
        let bytes = self.bytes();
        fnv1a(seed, &bytes[..self.text_len()])
    }

    // The row of the text that stands whole behind its length byte, of 1 to 24 bytes.
    pub(crate) fn read(bytes: &[u8]) -> Option<TextRow>
        ensures { result ≡ row_front bytes.now }
    {
        let (len, rest) = bytes.split_first()?;
        let n = usize::from(*len);
        if !is_length(n) {
            return None;
        }
        Some(TextRow::pack(rest.get(..n)?))
    }
}
