// The commands, on the map that 1024 lent cells hold.
ghost use Rattle.std.specs.Prelude.{◌≡◌, ◌+◌, ◌<◌, take, Some, None};
ghost use Rattle.layout.specs.Capacity.{capacity};
ghost use Rattle.maps.specs.Commands.{found, is_full, with_pair, without_key, put_answer, put_after, drop_answer, answer_to, map_after};
ghost use Rattle.maps.specs.Maps.{kinds_of};
ghost use Rattle.table.specs.Rows.{Finds, held_by};
ghost use Rattle.table.specs.Runs.{Stores, Turns, Does, Stays};

use crate::resize::{Scratch, fit};
use crate::stored::Stored;
use crate::walks::{insert, remove};
use cells::ring::capacity_of;
use kinds::key::Key;
use kinds::record::Record;
use kinds::value::Value;
use maps::{Answer, Command};

// A map has at most so many records.
pub const MOST_RECORDS: usize = 768;

// Cells that hold a map of `count` records under a seed, lent to be written. That a method stays on its cells, under its
// seed, and on its scratch is a clause of each: by it a lender knows its memory again, and no type can say it.
#[derive(Drop)]
pub struct Table<'a, K: Key, V: Value> {
    cells: &'a mut [Option<Record<K::Row, V>>],
    seed: u32,
    count: usize,
    ghost stored: { ∥ Stores (kinds_of K.Key.kind V.Value.kind) seed count cells.now ∥₁ },
}

impl<'a, K: Key, V: Value> Table<'a, K, V> {
    // Public for the crates above, which show that the cells hold such a map.
    pub fn new(cells: &'a mut [Option<Record<K::Row, V>>], seed: u32, count: usize) -> Self
        requires { ∥ Stores (kinds_of K.Key.kind V.Value.kind) seed count cells.old ∥₁ }
        ensures cells { result.cells.now ≡ cells.old }
        ensures cells_named { result.cells.ghost_name ≡ cells.entry.ghost_name }
        ensures seed { result.seed ≡ seed }
        ensures count { result.count ≡ count }
    {
        Table { cells, seed, count }
    }

    pub fn count(&self) -> usize
        ensures { result ≡ self.now.count }
    {
        self.count // of records
    }

    fn stored(&self) -> Stored<'_, K, V>
        ensures cells { result.cells.now ≡ self.now.cells.now }
        ensures seed { result.seed ≡ self.now.seed }
        ensures count { result.count ≡ self.now.count }
    {
        Stored::new(self.cells, self.seed, self.count)
    }

    // Where the record of a key stands, with the record.
    fn find(&self, key: K) -> Option<(usize, Record<K::Row, V>)>
        ensures { Finds (kinds_of K.Key.kind V.Value.kind) (take (capacity self.now.count) self.now.cells.now) key result }
    {
        self.stored().find(key)
    }

    // Adds a key that is not there. Where one record more demands more cells, the others are laid out in them first.
    fn add(&mut self, scratch: &mut Scratch<'_, Record<K::Row, V>>, key: K, value: V)
        requires few { self.old.count < 768 }
        requires absent { held_by (kinds_of K.Key.kind V.Value.kind) (Some key) (take (capacity self.old.count) self.old.cells.now) ≡ None }
        ensures cells { Turns (kinds_of K.Key.kind V.Value.kind) self.old.seed self.old.count (λ m. with_pair (kinds_of K.Key.kind V.Value.kind) key value m) self.old.cells.now self.new.cells.now }
        ensures count { self.new.count ≡ self.old.count + 1 }
        ensures stays { Stays self.old.seed self.old.cells self.new.seed self.new.cells }
        ensures scratch_named { scratch.new.cells.ghost_name ≡ scratch.old.cells.ghost_name }
    {
        let size = capacity_of(self.count);
        let wanted = capacity_of(self.count + 1);
        let new = Record { key, value }.to_row();
        let cells = &mut *self.cells;
        fit::<K, V>(cells, scratch.cells, self.seed, size, wanted);
        insert::<K, V>(&mut cells[..wanted], self.seed, new);
        self.count += 1;
    }

    // Takes out the record of a key that was found. Where one record less demands fewer cells, the others are then laid
    // out in them.
    fn take_out(
        &mut self,
        scratch: &mut Scratch<'_, Record<K::Row, V>>,
        key: K,
        place: usize,
        old: Record<K::Row, V>,
    )
        requires { Finds (kinds_of K.Key.kind V.Value.kind) (take (capacity self.old.count) self.old.cells.now) key (Some (place, old)) }
        ensures cells { Turns (kinds_of K.Key.kind V.Value.kind) self.old.seed self.old.count (λ m. without_key (kinds_of K.Key.kind V.Value.kind) key m) self.old.cells.now self.new.cells.now }
        ensures count { self.new.count + 1 ≡ self.old.count }
        ensures stays { Stays self.old.seed self.old.cells self.new.seed self.new.cells }
        ensures scratch_named { scratch.new.cells.ghost_name ≡ scratch.old.cells.ghost_name }
    {
        let size = capacity_of(self.count);
        let wanted = capacity_of(self.count - 1);
        let cells = &mut *self.cells;
        remove::<K, V>(&mut cells[..size], self.seed, place, old);
        fit::<K, V>(cells, scratch.cells, self.seed, size, wanted);
        self.count -= 1;
    }

    // Put: joined to the value that is there; else a new record, unless the map is full.
    fn put(&mut self, scratch: &mut Scratch<'_, Record<K::Row, V>>, key: K, value: V) -> Answer<V>
        ensures done { Does (kinds_of K.Key.kind V.Value.kind) self.old.seed self.old.count (λ m. put_after (found (kinds_of K.Key.kind V.Value.kind) key m) (is_full m) m (with_pair (kinds_of K.Key.kind V.Value.kind) key value m)) (λ m. put_answer (kinds_of K.Key.kind V.Value.kind) value (found (kinds_of K.Key.kind V.Value.kind) key m) (is_full m)) self.old.cells.now self.new.cells.now (result, self.new.count) }
        ensures stays { Stays self.old.seed self.old.cells self.new.seed self.new.cells }
        ensures scratch_named { scratch.new.cells.ghost_name ≡ scratch.old.cells.ghost_name }
    {
        match self.find(key) {
            Some((place, old)) => {
                let both = old.value.join(value);
                self.cells[place] = Some(Record { key, value: both }.to_row());
                Answer::Joined(both)
            }
            None => {
                if self.count >= MOST_RECORDS {
                    return Answer::Full;
                }
                self.add(scratch, key, value);
                Answer::New(value)
            }
        }
    }

    fn drop_key(&mut self, scratch: &mut Scratch<'_, Record<K::Row, V>>, key: K) -> Answer<V>
        ensures done { Does (kinds_of K.Key.kind V.Value.kind) self.old.seed self.old.count (λ m. without_key (kinds_of K.Key.kind V.Value.kind) key m) (λ m. drop_answer (found (kinds_of K.Key.kind V.Value.kind) key m)) self.old.cells.now self.new.cells.now (result, self.new.count) }
        ensures stays { Stays self.old.seed self.old.cells self.new.seed self.new.cells }
        ensures scratch_named { scratch.new.cells.ghost_name ≡ scratch.old.cells.ghost_name }
    {
        match self.find(key) {
            Some((place, old)) => {
                self.take_out(scratch, key, place, old);
                Answer::Dropped(old.value)
            }
            None => Answer::Absent,
        }
    }

    // Runs one command, and tells its answer.
    pub fn run(
        &mut self,
        scratch: &mut Scratch<'_, Record<K::Row, V>>,
        command: Command<K::Row, V>,
    ) -> Answer<V>
        ensures done { Does (kinds_of K.Key.kind V.Value.kind) self.old.seed self.old.count (λ m. map_after (kinds_of K.Key.kind V.Value.kind) command m) (λ m. answer_to (kinds_of K.Key.kind V.Value.kind) command m) self.old.cells.now self.new.cells.now (result, self.new.count) }
        ensures stays { Stays self.old.seed self.old.cells self.new.seed self.new.cells }
        ensures scratch_named { scratch.new.cells.ghost_name ≡ scratch.old.cells.ghost_name }
    {
        let Some(key) = K::from_row(command.row()) else {
            return Answer::Absent;
        };
        match command {
            Command::Put(_, value) => self.put(scratch, key, value),
            Command::Drop(_) => self.drop_key(scratch, key),
            Command::Get(_) => self.stored().get(key),
        }
    }
}
