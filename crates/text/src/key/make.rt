// Text keys from bytes.
ghost use Rattle.text.specs.Keys.{text};
ghost use Rattle.text.specs.Making.{Makes, refused, refusal, CaseBlind};
ghost use Rattle.std.specs.Prelude.{◌≡◌, length};

use super::TextKey;
use super::letters::first_not_allowed;
use crate::fault::TextFault;
use crate::row::{TextRow, is_length};

impl TextKey {
    pub fn len(&self) -> usize
        ensures { result ≡ length (text self.now) }
    {
        self.row.text_len()
    }

    // The key of the bytes, small letters turned.
    pub fn new(bytes: &[u8]) -> Result<TextKey, TextFault>
        ensures made { Makes bytes.now result }
        ensures told { refused result ≡ refusal bytes.now }
        ensures blind { CaseBlind bytes.now result }
    {
        let n = bytes.len();
        if !is_length(n) {
            return Err(TextFault::Length);
        }
        if let Some(i) = first_not_allowed(bytes) {
            return Err(TextFault::NotAllowed(i + 1));
        }
        let mut text = [0; 24];
        text[..n].copy_from_slice(bytes);
        text.make_ascii_uppercase();
        Ok(TextKey {
            row: TextRow::pack(&text[..n]),
        })
    }
}
