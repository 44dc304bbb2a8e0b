ghost use Rattle.std.specs.Prelude.{◌≡◌, ◌+◌, Some, slice_set};
ghost use Rattle.store.specs.Stores.{read_told, write_told, once_written, Writes, Flushes};
ghost use Rattle.store.specs.Told.{tells};
ghost use Rattle.layers.specs.Layered.{window_count, window_shown, window_kept};
ghost use Rattle.layers.specs.Layers.{offset_place, offset_lengths};

use store::fault::{BlockFault, StoreFault};
use store::store::{Block, Store};

// Which blocks a layer takes of a store: from `first` on, `wished` of them or as many as there are.
#[derive(Clone, Copy, Debug, PartialEq, Eq)]
pub struct Window {
    first: usize,
    wished: usize,
}

// The blocks of the store below that lie in a window. That a call leaves the window as it was is a clause of each, since the trait knows no window.
#[derive(Drop)]
pub struct Offset<S> {
    below: S,
    window: Window,
}

impl<S> Offset<S> {
    pub fn new(below: S, first: usize, wished: usize) -> Self
        ensures below { result.below ≡ below }
        ensures window { result.window ≡ record { first = first; wished = wished } }
    {
        Offset {
            below,
            window: Window { first, wished },
        }
    }
}

impl<S: Store> Offset<S> {
    // Where block `i` lies below, if there is one.
    fn place(&self, i: usize) -> Option<usize>
        ensures { result ≡ offset_place self.now.window.first self.now.window.wished (S.Store.count self.now.below) i }
    {
        let n = self.below.count();
        let at = self.window.first.checked_add(i)?;
        (i < self.window.wished && at < n).then_some(at)
    }

    // Block `i`, which lies at `at` below.
    fn read_at(&self, i: usize, at: usize) -> Result<Block, StoreFault>
        requires { Some at ≡ offset_place self.now.window.first self.now.window.wished (S.Store.count self.now.below) i }
        ensures { tells ⟦<StoreFault as BlockFault>⟧ result ≡ read_told ⟦<Offset<S> as Store>⟧ self.now i }
    {
        self.below.read(at).map_err(|_| StoreFault::Unreadable(i))
    }

    // Writes block `i`, which lies at `at` below.
    fn write_at(&mut self, i: usize, at: usize, block: &Block) -> Result<(), StoreFault>
        requires { Some at ≡ offset_place self.old.window.first self.old.window.wished (S.Store.count self.old.below) i }
        ensures answer { tells ⟦<StoreFault as BlockFault>⟧ result ≡ write_told ⟦<Offset<S> as Store>⟧ self.old i }
        ensures writes { Writes ⟦<Offset<S> as Store>⟧ i block.now self.old self.new }
        ensures below { S.Store.shown self.new.below ≡ once_written ⟦<Offset<S> as Store>⟧ self.old i (S.Store.shown self.old.below) (slice_set (S.Store.shown self.old.below) (self.old.window.first + i) (Some block.now)) }
        ensures window { self.new.window ≡ self.old.window }
    {
        self.below
            .write(at, block)
            .map_err(|_| StoreFault::Protected(i))
    }
}

impl<S: Store> Store for Offset<S> {
    type Fault = StoreFault;

    ghost count = { window_count S.Store };

    ghost protected = { λ s. S.Store.protected s.below };

    ghost shown = { window_shown S.Store };

    ghost kept = { window_kept S.Store };

    ghost lengths = { λ s. offset_lengths s.window.first s.window.wished (S.Store.count s.below) (S.Store.shown s.below) (S.Store.kept s.below) };

    fn count(&self) -> usize {
        self.window
            .wished
            .min(self.below.count().saturating_sub(self.window.first))
    }

    fn protected(&self) -> bool {
        self.below.protected()
    }

    fn read(&self, i: usize) -> Result<Block, StoreFault> {
        let at = self.place(i).ok_or(StoreFault::Range(i))?;
        self.read_at(i, at)
    }

    // What the trait asks, then that no other block below changes.
    fn write(&mut self, i: usize, block: &Block) -> Result<(), StoreFault>
        ensures answer { tells ⟦<StoreFault as BlockFault>⟧ result ≡ write_told ⟦<Offset<S> as Store>⟧ self.old i }
        ensures writes { Writes ⟦<Offset<S> as Store>⟧ i block.now self.old self.new }
        ensures below { S.Store.shown self.new.below ≡ once_written ⟦<Offset<S> as Store>⟧ self.old i (S.Store.shown self.old.below) (slice_set (S.Store.shown self.old.below) (self.old.window.first + i) (Some block.now)) }
        ensures window { self.new.window ≡ self.old.window }
    {
        let at = self.place(i).ok_or(StoreFault::Range(i))?;
        self.write_at(i, at, block)
    }

    // What the trait asks, then that the store below is flushed.
    fn flush(&mut self)
        ensures flushes { Flushes ⟦<Offset<S> as Store>⟧ self.old self.new }
        ensures below { Flushes S.Store self.old.below self.new.below }
        ensures window { self.new.window ≡ self.old.window }
    {
        self.below.flush();
    }
}
