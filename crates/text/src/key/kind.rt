// Texts as a kind of key.
ghost use Rattle.text.specs.Keys.{text, text_kind};
ghost use Rattle.text.specs.Lexical.{Lexical};
ghost use Rattle.text.specs.Letters.{keeps};
ghost use Rattle.text.specs.Rows.{row_kept};
ghost use Rattle.std.specs.Prelude.{◌≡◌};
ghost use Rattle.text.specs.KeysLemmas.{text_laws};

use super::TextKey;
use super::letters::keep_all;
use crate::row::{TextRow, all_zero, is_length};
use kinds::code::NoCode;
use kinds::key::Key;
use std::cmp::Ordering;

// Whether a row is a key's.
fn row_is_kept(row: TextRow) -> bool
    ensures { result ≡ row_kept keeps row }
{
    let n = usize::from(row.len);
    if !is_length(n) {
        return false;
    }
    let bytes = row.bytes();
    keep_all(&bytes[..n]) && all_zero(&bytes[n..])
}

impl Key for TextKey {
    type Row = TextRow;

    ghost kind = { text_kind };

    ghost lawful = { text_laws };

    fn kind_number() -> u8 {
        2
    }

    fn code_len(&self) -> usize {
        self.len() + 1
    }

    fn code_at(&self, i: usize) -> u8 {
        self.row.code_at(i)
    }

    fn compare(&self, other: &TextKey) -> Ordering
        ensures order { result ≡ text_kind.order self.now other.now }
        ensures lexical { Lexical (text self.now) (text other.now) result }
    {
        self.row.compare(&other.row)
    }

    fn hash(&self, seed: u32) -> u32 {
        self.row.hash(seed)
    }

    fn to_row(&self) -> TextRow {
        self.row
    }

    fn from_row(plain: TextRow) -> Option<TextKey> {
        // The key's invariant is shown within the branch.
        if row_is_kept(plain) {
            Some(TextKey { row: plain })
        } else {
            None
        }
    }

    fn read(bytes: &[u8]) -> Result<(TextKey, usize), NoCode> {
        let row = TextRow::read(bytes).ok_or(NoCode)?;
        let key = TextKey::from_row(row).ok_or(NoCode)?;
        Ok((key, key.code_len()))
    }
}
