// Which cells are not in place, whatever rows they hold. A caller has at most 1024 cells: a clause says so, since lent memory is a
// slice, a rule of the project.
ghost use Rattle.std.specs.Prelude.{◌≡◌, ◌<◌, ◌≤◌, length};
ghost use Rattle.cells.specs.Rows.{row_rule};
ghost use Rattle.layout.specs.Places.{barred, first_out, out_of_place};
ghost use Rattle.maps.specs.Maps.{kinds_of};

use crate::ring::step;
use crate::rows::{home, is_before};
use kinds::key::Key;
use kinds::record::Record;
use kinds::value::Value;

// Whether a cell from the home of the key up to the one before cell i holds no strictly earlier key.
fn is_barred<K: Key, V: Value>(
    cells: &[Option<Record<K::Row, V>>],
    seed: u32,
    key: Option<K>,
    i: usize,
) -> bool
    requires few { length cells.now ≤ 1024 }
    requires within { i < length cells.now }
    ensures { result ≡ barred (row_rule (kinds_of K.Key.kind V.Value.kind) seed (length cells.now)) cells.now key i }
{
    // An iterator of the cells on the way would be this loop again, in a type: no plainer.
    let mut j = home(cells.len(), seed, key);
    'way: while j != i {
        let cell = cells[j];
        let Some(record) = cell else { return true };
        if !is_before(K::from_row(record.key), key) {
            return true;
        }
        j = step(cells.len(), j);
    }
    false
}

fn is_out_of_place<K: Key, V: Value>(
    cells: &[Option<Record<K::Row, V>>],
    seed: u32,
    i: usize,
) -> bool
    requires few { length cells.now ≤ 1024 }
    requires within { i < length cells.now }
    ensures { result ≡ out_of_place (row_rule (kinds_of K.Key.kind V.Value.kind) seed (length cells.now)) cells.now i }
{
    let key = cells[i].map(|record| K::from_row(record.key));
    key.is_some_and(|key| is_barred::<K, V>(cells, seed, key, i))
}

// The lowest cell that is not in place. Where each row is a key's, it is the lowest out of place among the keys, too:
// `first_out_lent` in proofs/Lent.antt.
pub fn first_out_of_place<K: Key, V: Value>(
    cells: &[Option<Record<K::Row, V>>],
    seed: u32,
) -> Option<usize>
    requires { length cells.now ≤ 1024 }
    ensures { result ≡ first_out (row_rule (kinds_of K.Key.kind V.Value.kind) seed (length cells.now)) cells.now }
{
    (0..cells.len()).find(|i| is_out_of_place::<K, V>(cells, seed, *i))
}
