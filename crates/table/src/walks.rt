// The walks over cells that are a layout. A caller shows that they are, and that one of them is empty.
// A walk goes round from a cell to where what stands in one ends it, and writes on its way: an iterator could not lend the
// cells meanwhile, and one for reading alone would be the loop again, in a type. Each asks for itself that the cells are
// sound, since it goes over the first of more cells, or over cells that are filled only now, of which no type tells it.
ghost use Rattle.std.specs.Prelude.{◌≡◌, ◌<◌, ◌≤◌, length, replicate, Some, None};
ghost use Rattle.layout.specs.Cells.{at as in_cell, filled, layout, records_of};
ghost use Rattle.maps.specs.Maps.{kinds_of};
ghost use Rattle.cells.specs.Rows.{Cells, row_key, row_order, row_rule};
ghost use Rattle.table.specs.Rows.{Finds, held_by, cells_with, cells_without};

use cells::ring::{distance, step};
use cells::rows::{home, is_before};
use kinds::key::Key;
use kinds::record::Record;
use kinds::value::Value;

// Where the key stands: from its home on, up to the key, an empty cell or a later key.
pub fn lookup<K: Key, V: Value>(
    cells: &[Option<Record<K::Row, V>>],
    seed: u32,
    key: K,
) -> Option<(usize, Record<K::Row, V>)>
    requires few { length cells.now ≤ 1024 }
    requires sound { Cells (kinds_of K.Key.kind V.Value.kind) seed cells.now }
    ensures { Finds (kinds_of K.Key.kind V.Value.kind) cells.now key result }
{
    let wanted = Some(key);
    let mut i = home(cells.len(), seed, wanted);
    'probe: loop {
        let cell = cells[i];
        match cell {
            None => return None,
            Some(record) => {
                let found: Option<K> = K::from_row(record.key);
                if is_before(found, wanted) {
                    i = step(cells.len(), i);
                } else if is_before(wanted, found) {
                    return None;
                } else {
                    return Some((i, record));
                }
            }
        }
    }
}

// Puts a record whose key is not there: from its home on, each later record that it meets gives way and is carried on.
pub fn insert<K: Key, V: Value>(
    cells: &mut [Option<Record<K::Row, V>>],
    seed: u32,
    new: Record<K::Row, V>,
)
    requires few { length cells.old ≤ 1024 }
    requires sound { Cells (kinds_of K.Key.kind V.Value.kind) seed cells.old }
    requires absent { held_by (kinds_of K.Key.kind V.Value.kind) (row_key (kinds_of K.Key.kind V.Value.kind) new) cells.old ≡ None }
    ensures { cells.new ≡ cells_with (kinds_of K.Key.kind V.Value.kind) seed new cells.old }
{
    let size = cells.len();
    let first: Option<K> = K::from_row(new.key);
    let mut i = home(size, seed, first);
    let mut carried = new;
    'carry: loop {
        let cell = cells[i];
        match cell {
            None => {
                cells[i] = Some(carried);
                return;
            }
            Some(found) => {
                let ours: Option<K> = K::from_row(carried.key);
                let theirs: Option<K> = K::from_row(found.key);
                if is_before(ours, theirs) {
                    cells[i] = Some(carried);
                    carried = found;
                }
                i = step(size, i);
            }
        }
    }
}

// Takes the record out of cell `place`. Each record behind it whose way led past the hole is shifted back into it,
// past those that stay, up to an empty cell.
pub fn remove<K: Key, V: Value>(
    cells: &mut [Option<Record<K::Row, V>>],
    seed: u32,
    place: usize,
    old: Record<K::Row, V>,
)
    requires few { length cells.old ≤ 1024 }
    requires sound { Cells (kinds_of K.Key.kind V.Value.kind) seed cells.old }
    requires within { place < length cells.old }
    requires there { in_cell cells.old place ≡ Some old }
    ensures { cells.new ≡ cells_without (kinds_of K.Key.kind V.Value.kind) seed (row_key (kinds_of K.Key.kind V.Value.kind) old) cells.old }
{
    let size = cells.len();
    cells[place] = None;
    let mut hole = place;
    let mut i = step(size, place);
    'shift: loop {
        let cell = cells[i];
        match cell {
            None => return,
            Some(found) => {
                let key: Option<K> = K::from_row(found.key);
                let start = home(size, seed, key);
                if distance(size, start, hole) < distance(size, start, i) {
                    cells[hole] = Some(found);
                    cells[i] = None;
                    hole = i;
                }
                i = step(size, i); // past one that stays, too
            }
        }
    }
}

// Lays the records of some cells out in others, empty ones.
pub fn gather<K: Key, V: Value>(
    from: &[Option<Record<K::Row, V>>],
    into: &mut [Option<Record<K::Row, V>>],
    seed: u32,
)
    requires sound { Cells (kinds_of K.Key.kind V.Value.kind) seed from.now }
    requires room { filled from.now < length into.old }
    requires few { length into.old ≤ 1024 }
    requires empty { into.old ≡ replicate (length into.old) None }
    ensures { into.new ≡ layout (row_rule (kinds_of K.Key.kind V.Value.kind) seed (length into.old)) (records_of (row_order (kinds_of K.Key.kind V.Value.kind)) from.now) }
{
    for cell in from {
        if let Some(record) = cell {
            insert::<K, V>(into, seed, *record);
        }
    }
}
