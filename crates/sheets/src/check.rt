// Whether lent cells, with any rows in them, are a layout.
ghost use Rattle.std.specs.Prelude.{◌≡◌, ◌≤◌, length, Decides, is_some};
ghost use Rattle.std.specs.List.{count_by, list_all};
ghost use Rattle.layout.specs.Capacity.{capacity as demanded};
ghost use Rattle.maps.specs.Maps.{kinds_of};
ghost use Rattle.sheets.specs.Checks.{cell_keyed, Keyed, IsTable};
ghost use Rattle.table.specs.Runs.{Stores};

use cells::places::first_out_of_place;
use cells::ring::capacity_of;
use cells::shape::Shape;
use kinds::key::Key;
use kinds::record::Record;
use kinds::value::Value;
use table::commands::MOST_RECORDS;

fn count_filled<R: Copy>(cells: &[Option<R>]) -> usize
    ensures { result ≡ count_by is_some cells.now }
{
    // A loop, which compiles to steps of several cells; `filter` with `count` goes one by one.
    let mut count = 0;
    for cell in cells {
        if cell.is_some() {
            count += 1;
        }
    }
    count
}

// Whether a cell is empty or holds a key's row.
fn is_keyed<K: Key, V: Value>(cell: &Option<Record<K::Row, V>>) -> bool
    ensures { result ≡ cell_keyed (kinds_of K.Key.kind V.Value.kind) cell.now }
{
    cell.is_none_or(|record| K::from_row(record.key).is_some())
}

fn all_keyed<K: Key, V: Value>(cells: &[Option<Record<K::Row, V>>]) -> bool
    ensures { result ≡ list_all (cell_keyed (kinds_of K.Key.kind V.Value.kind)) cells.now }
{
    cells.iter().all(|cell| is_keyed::<K, V>(cell))
}

// The same where the lengths and the count are right, as `is_layout` has shown: seed, count and size stand apart,
// since the size is by now what the count demands. They stand in clauses, since lent memory is a slice: a rule of the project.
fn holds_layout<K: Key, V: Value>(
    cells: &[Option<Record<K::Row, V>>],
    seed: u32,
    count: usize,
    size: usize,
) -> bool
    requires all { length cells.now ≡ 1024 }
    requires few { count ≤ 768 }
    requires wanted { size ≡ demanded count }
    requires within { size ≤ length cells.now }
    ensures { Decides result (Stores (kinds_of K.Key.kind V.Value.kind) seed count cells.now) }
{
    let front = &cells[..size];
    if count_filled(front) != count {
        return false;
    }
    if count_filled(&cells[size..]) != 0 {
        return false;
    }
    if !all_keyed::<K, V>(front) {
        return false;
    }
    first_out_of_place::<K, V>(front, seed).is_none()
}

// Whether the cells are a layout of that shape, with all beyond the capacity empty.
pub fn is_layout<K: Key, V: Value>(cells: &[Option<Record<K::Row, V>>], shape: Shape) -> bool
    ensures { Decides result (IsTable (kinds_of K.Key.kind V.Value.kind) shape.seed shape.count shape.capacity cells.now) }
{
    if cells.len() != 1024 {
        return false;
    }
    if shape.count > MOST_RECORDS {
        return false;
    }
    if shape.capacity != capacity_of(shape.count) {
        return false;
    }
    holds_layout::<K, V>(cells, shape.seed, shape.count, shape.capacity)
}
