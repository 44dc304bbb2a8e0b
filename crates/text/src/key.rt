// The text key. A key is made from bytes (`make`), or from a row or a code that was checked (`kind`).
ghost use Rattle.text.specs.Letters.{keeps};
ghost use Rattle.text.specs.Rows.{row_kept};
ghost use Rattle.std.specs.Prelude.{◌≡◌, true};

use crate::row::TextRow;

pub mod kind;
mod letters;
pub mod make;

// 1 to 24 bytes, which lie in the row: each is allowed and no small letter, and zeros stand behind the end.
#[derive(Clone, Copy, PartialEq, Eq, Debug)]
pub struct TextKey {
    row: TextRow,
    ghost kept: { row_kept keeps row ≡ true },
}
