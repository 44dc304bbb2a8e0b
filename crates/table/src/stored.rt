// The map that lent cells hold, for those who read it.
ghost use Rattle.std.specs.Prelude.{◌≡◌, take};
ghost use Rattle.layout.specs.Capacity.{capacity};
ghost use Rattle.maps.specs.Commands.{found, get_answer};
ghost use Rattle.maps.specs.Maps.{kinds_of};
ghost use Rattle.table.specs.Rows.{Finds};
ghost use Rattle.table.specs.Runs.{Stores, Tells};

use crate::walks::lookup;
use cells::ring::capacity_of;
use kinds::key::Key;
use kinds::record::Record;
use kinds::value::Value;
use maps::Answer;

// Cells that hold a map of `count` records under a seed, lent to be read; to a `Table` they are lent to be written.
// `Table::stored` lends one's cells on to be read.
#[derive(Drop)]
pub struct Stored<'a, K: Key, V: Value> {
    cells: &'a [Option<Record<K::Row, V>>],
    seed: u32,
    count: usize,
    ghost stored: { ∥ Stores (kinds_of K.Key.kind V.Value.kind) seed count cells.now ∥₁ },
}

impl<'a, K: Key, V: Value> Stored<'a, K, V> {
    // Public for the crates above, which show that the cells hold such a map.
    pub fn new(cells: &'a [Option<Record<K::Row, V>>], seed: u32, count: usize) -> Self
        requires { ∥ Stores (kinds_of K.Key.kind V.Value.kind) seed count cells.now ∥₁ }
        ensures cells { result.cells.now ≡ cells.now }
        ensures seed { result.seed ≡ seed }
        ensures count { result.count ≡ count }
    {
        Stored { cells, seed, count }
    }

    pub fn count(&self) -> usize
        ensures { result ≡ self.now.count }
    {
        self.count
    }

    // Where the record of a key stands, with the record.
    pub fn find(&self, key: K) -> Option<(usize, Record<K::Row, V>)>
        ensures { Finds (kinds_of K.Key.kind V.Value.kind) (take (capacity self.now.count) self.now.cells.now) key result }
    {
        lookup(&self.cells[..capacity_of(self.count)], self.seed, key)
    }

    pub fn get(&self, key: K) -> Answer<V>
        ensures { Tells (kinds_of K.Key.kind V.Value.kind) self.now.seed self.now.count (λ m. get_answer (found (kinds_of K.Key.kind V.Value.kind) key m)) self.now.cells.now result }
    {
        match self.find(key) {
            Some((_, old)) => Answer::Found(old.value),
            None => Answer::Absent,
        }
    }
}
