ghost use Rattle.std.specs.Prelude.{◌≡◌, ◌<◌, false, [], Some, slice_set};
ghost use Rattle.store.specs.Stores.{read_told, write_told, once_written, Fixed, Writes, Flushes};
ghost use Rattle.store.specs.Told.{tells};
ghost use Rattle.writeback.specs.Holds.{held_list};
ghost use Rattle.writeback.specs.Overlaid.{overlaid};
ghost use Rattle.writeback.specs.Overlays.{overlay, overlay_lengths};
ghost use Rattle.writeback.specs.Slots.{held_place, renewed, newest_four, beyond_four};

use crate::held::Held;
use crate::slot::Slot;
use store::fault::{BlockFault, StoreFault, readable, writable};
use store::store::{Block, Store};

// A store that holds back up to four written blocks.
#[derive(Drop)]
pub struct WriteBack<S> {
    below: S,
    held: Held,
}

impl<S> WriteBack<S> {
    pub fn new(below: S) -> Self
        ensures below { result.below ≡ below }
        ensures held { held_list result.held ≡ [] }
    {
        WriteBack {
            below,
            held: Held::new(),
        }
    }
}

impl<S: Store> WriteBack<S> {
    // The block that is held for `i`, if the store below would take it.
    fn held_block(&self, i: usize) -> Option<Block>
        ensures { result ≡ held_place (S.Store.protected self.now.below) i (held_list self.now.held) }
    {
        if self.protected() {
            return None;
        }
        self.held.find(i)
    }

    // Block `i`, which the store below has.
    fn read_within(&self, i: usize) -> Result<Block, StoreFault>
        requires { i < S.Store.count self.now.below }
        ensures { tells ⟦<StoreFault as BlockFault>⟧ result ≡ read_told ⟦<WriteBack<S> as Store>⟧ self.now i }
    {
        // A match: in `map_or_else` the read's `map_err` is a closure within a closure, which is no plainer.
        match self.held_block(i) {
            Some(block) => Ok(block),
            None => self.below.read(i).map_err(|_| StoreFault::Unreadable(i)),
        }
    }

    // Holds a written block, and sends the longest held below to make way where there would be five.
    fn make_way(&mut self, slot: Slot)
        ensures fixed { Fixed S.Store self.old.below self.new.below }
        ensures held { held_list self.new.held ≡ newest_four (renewed (held_list self.old.held) slot) }
        ensures below { S.Store.shown self.new.below ≡ overlay (S.Store.count self.old.below) (S.Store.protected self.old.below) (S.Store.shown self.old.below) (beyond_four (renewed (held_list self.old.held) slot)) }
    {
        if let Some(oldest) = self.held.push(slot) {
            let _ = self.below.write(oldest.at, &oldest.block);
        }
    }

    // Takes a write of block `i`, which the store below has and would take.
    fn take_write(&mut self, i: usize, block: &Block)
        requires { (i < S.Store.count self.old.below) × (S.Store.protected self.old.below ≡ false) }
        ensures fixed { Fixed S.Store self.old.below self.new.below }
        ensures shows { overlaid S.Store self.new ≡ slice_set (overlaid S.Store self.old) i (Some block.now) }
        ensures held { held_list self.new.held ≡ newest_four (renewed (held_list self.old.held) record { at = i; block = block.now }) }
        ensures below { S.Store.shown self.new.below ≡ overlay (S.Store.count self.old.below) (S.Store.protected self.old.below) (S.Store.shown self.old.below) (beyond_four (renewed (held_list self.old.held) record { at = i; block = block.now })) }
    {
        self.make_way(Slot {
            at: i,
            block: *block,
        });
    }
}

// It shows what the store below would show once it had taken what is held, and keeps what the store below keeps.
impl<S: Store> Store for WriteBack<S> {
    type Fault = StoreFault;

    ghost count = { λ s. S.Store.count s.below };

    ghost protected = { λ s. S.Store.protected s.below };

    ghost shown = { overlaid S.Store };

    ghost kept = { λ s. S.Store.kept s.below };

    ghost lengths = { λ s. overlay_lengths (S.Store.count s.below) (S.Store.protected s.below) (S.Store.shown s.below) (S.Store.kept s.below) (held_list s.held) (S.Store.lengths s.below) };

    fn count(&self) -> usize {
        self.below.count()
    }

    fn protected(&self) -> bool {
        self.below.protected()
    }

    fn read(&self, i: usize) -> Result<Block, StoreFault> {
        readable(i, self.count())?;
        self.read_within(i)
    }

    // What the trait asks, then that a refused write is not held, and that a taken one is held as the newest while the
    // longest held goes below to make way.
    fn write(&mut self, i: usize, block: &Block) -> Result<(), StoreFault>
        ensures answer { tells ⟦<StoreFault as BlockFault>⟧ result ≡ write_told ⟦<WriteBack<S> as Store>⟧ self.old i }
        ensures writes { Writes ⟦<WriteBack<S> as Store>⟧ i block.now self.old self.new }
        ensures held { held_list self.new.held ≡ once_written ⟦<WriteBack<S> as Store>⟧ self.old i (held_list self.old.held) (newest_four (renewed (held_list self.old.held) record { at = i; block = block.now })) }
        ensures below { S.Store.shown self.new.below ≡ once_written ⟦<WriteBack<S> as Store>⟧ self.old i (S.Store.shown self.old.below) (overlay (S.Store.count self.old.below) (S.Store.protected self.old.below) (S.Store.shown self.old.below) (beyond_four (renewed (held_list self.old.held) record { at = i; block = block.now }))) }
    {
        writable(i, self.count(), self.protected())?;
        self.take_write(i, block);
        Ok(())
    }

    // What the trait asks, then that all that was held is below.
    fn flush(&mut self)
        ensures flushes { Flushes ⟦<WriteBack<S> as Store>⟧ self.old self.new }
        ensures held { held_list self.new.held ≡ [] }
        ensures below { S.Store.shown self.new.below ≡ overlaid S.Store self.old }
    {
        while let Some(next) = self.held.pop() {
            let _ = self.below.write(next.at, &next.block);
        }
        self.below.flush();
    }
}
