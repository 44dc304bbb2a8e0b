// Whether two tables hold one map. Seeds put the same records into other cells, so cells can't be compared one by one.
#![tactic(auto)]

ghost use Rattle.compare.specs.Compare.{StoresBySome, Has, HasAll, Compares};
ghost use Rattle.maps.specs.Maps.{kinds_of};
ghost use Rattle.std.specs.Prelude.{◌≡◌, Decides};

use kinds::key::Key;
use kinds::record::Record;
use kinds::value::Value;
use maps::Answer;
use table::stored::Stored;

// Values are equal exactly when their codes are. Not `PartialEq`: its bound would ask more of whoever writes a kind.
fn same_value<V: Value>(left: &V, right: &V) -> bool
    ensures { Decides result (left.now ≡ right.now) }
{
    let len = left.code_len();
    if right.code_len() != len {
        return false;
    }
    // In a chain the closure would need a clause for what `code_at` asks: no plainer.
    for i in 0..len {
        if left.code_at(i) != right.code_at(i) {
            return false;
        }
    }
    true
}

// Whether a table has the record.
fn has_record<K: Key, V: Value>(table: &Stored<'_, K, V>, wanted: Record<K::Row, V>) -> bool
    ensures { Has (kinds_of K.Key.kind V.Value.kind) table.now.seed table.now.cells.now wanted result }
{
    let Some(key) = K::from_row(wanted.key) else {
        return false;
    };
    match table.get(key) {
        Answer::Found(value) => same_value(&value, &wanted.value),
        _ => false,
    }
}

// Whether a table has each record of the given cells.
fn has_all<K: Key, V: Value>(table: &Stored<'_, K, V>, rows: &[Option<Record<K::Row, V>>]) -> bool
    ensures { HasAll (kinds_of K.Key.kind V.Value.kind) table.now.seed table.now.cells.now rows.now result }
{
    for row in rows {
        if let Some(wanted) = row {
            if !has_record::<K, V>(table, *wanted) {
                return false;
            }
        }
    }
    true
}

// Whether the cells and the table hold one map. Callers show that the cells hold one of so many records, under any seed: a
// second `Stored` would ask for that seed too.
pub fn same_map<K: Key, V: Value>(
    cells: &[Option<Record<K::Row, V>>],
    count: usize,
    other: &Stored<'_, K, V>,
) -> bool
    requires { StoresBySome (kinds_of K.Key.kind V.Value.kind) count cells.now }
    ensures { Compares (kinds_of K.Key.kind V.Value.kind) cells.now other.now.cells.now result }
{
    // With as many records, a table that has all of these has no others.
    count == other.count() && has_all(other, cells)
}
