// The codes of the records, in cell order.
ghost use Rattle.std.specs.Prelude.{◌≡◌, ◌+◌, ◌*◌, ◌≤◌, length};
ghost use Rattle.image.specs.Image.{code_of, codes as codes_in};
ghost use Rattle.image.specs.Rows.{keyed_cells};
ghost use Rattle.kinds.specs.Records.{written};
ghost use Rattle.maps.specs.Maps.{kinds_of};

use image::cell::record_of;
use kinds::key::Key;
use kinds::record::Record;
use kinds::value::Value;

// Writes a code that has room, and gives the place behind it.
fn put_code<K: Key, V: Value>(found: &Record<K, V>, out: &mut [u8], at: usize) -> usize
    requires { at + length (code_of (kinds_of K.Key.kind V.Value.kind) found.now) ≤ length out.old }
    ensures behind { result ≡ at + length (code_of (kinds_of K.Key.kind V.Value.kind) found.now) }
    ensures bytes { out.new ≡ written out.old at (code_of (kinds_of K.Key.kind V.Value.kind) found.now) }
{
    found.write(out, at).unwrap()
}

pub(crate) fn put_codes<K: Key, V: Value>(
    cells: &[Option<Record<K::Row, V>>],
    out: &mut [u8],
    from: usize,
)
    requires { from + length (codes_in (code_of (kinds_of K.Key.kind V.Value.kind)) (keyed_cells (kinds_of K.Key.kind V.Value.kind) cells.now)) ≤ length out.old }
    ensures { out.new ≡ written out.old from (codes_in (code_of (kinds_of K.Key.kind V.Value.kind)) (keyed_cells (kinds_of K.Key.kind V.Value.kind) cells.now)) }
{
    let mut at = from;
    for cell in cells {
        if let Some(found) = record_of::<K, V>(*cell) {
            at = put_code(&found, out, at);
        }
    }
}

// It walks as `put_codes` does, but has no bytes to write to: a walk for both would take a closure, and be no shorter.
// That 1024 cells are the most is a clause, since lent memory is a slice.
pub(crate) fn codes_len<K: Key, V: Value>(cells: &[Option<Record<K::Row, V>>]) -> usize
    requires { length cells.now ≤ 1024 }
    ensures size { result ≡ length (codes_in (code_of (kinds_of K.Key.kind V.Value.kind)) (keyed_cells (kinds_of K.Key.kind V.Value.kind) cells.now)) }
    ensures small { result ≤ 35840 }
{
    let mut n = 0;
    for cell in cells {
        if let Some(found) = record_of::<K, V>(*cell) {
            n += found.code_len();
        }
    }
    n
}
