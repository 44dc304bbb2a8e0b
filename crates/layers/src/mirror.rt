ghost use Rattle.std.specs.Prelude.{◌≡◌, ◌<◌, false, Some, slice_set};
ghost use Rattle.store.specs.Answers.{place_answer};
ghost use Rattle.store.specs.Stores.{read_told, write_told, once_written, Fixed, Writes, Flushes};
ghost use Rattle.store.specs.Told.{tells};
ghost use Rattle.layers.specs.Layered.{both_count, either_protected, both_shown, both_kept};
ghost use Rattle.layers.specs.Layers.{place_of, agreed, mirror_lengths};

use store::fault::{BlockFault, StoreFault, readable, writable};
use store::store::{Block, Store};

// Two stores that are written alike, so that what one of them can't read the other may.
#[derive(Drop)]
pub struct Mirror<L, R> {
    left: L,
    right: R,
}

impl<L, R> Mirror<L, R> {
    pub fn new(left: L, right: R) -> Self
        ensures left { result.left ≡ left }
        ensures right { result.right ≡ right }
    {
        Mirror { left, right }
    }
}

// What two halves tell of block `i`.
fn agree<F: BlockFault, G: BlockFault>(
    i: usize,
    left: Result<Block, F>,
    right: Result<Block, G>,
) -> Result<Block, StoreFault>
    ensures { tells ⟦<StoreFault as BlockFault>⟧ result ≡ place_answer i (agreed (place_of left) (place_of right)) }
{
    let shown = match (left.ok(), right.ok()) {
        (Some(x), Some(y)) => (x == y).then_some(x),
        (x, y) => x.or(y),
    };
    shown.ok_or(StoreFault::Unreadable(i))
}

impl<L: Store, R: Store> Mirror<L, R> {
    // Block `i`, which both halves have.
    fn read_both(&self, i: usize) -> Result<Block, StoreFault>
        requires { i < both_count L.Store R.Store self.now }
        ensures { tells ⟦<StoreFault as BlockFault>⟧ result ≡ read_told ⟦<Mirror<L, R> as Store>⟧ self.now i }
    {
        agree(i, self.left.read(i), self.right.read(i))
    }

    // Hands a write to both halves, whatever they answer.
    fn write_halves(&mut self, i: usize, block: &Block)
        ensures left { Writes L.Store i block.now self.old.left self.new.left }
        ensures right { Writes R.Store i block.now self.old.right self.new.right }
    {
        let _ = self.left.write(i, block);
        let _ = self.right.write(i, block);
    }

    // Writes block `i`, which both halves have and take.
    fn write_both(&mut self, i: usize, block: &Block)
        requires { (i < both_count L.Store R.Store self.old) × (either_protected L.Store R.Store self.old ≡ false) }
        ensures fixed { Fixed ⟦<Mirror<L, R> as Store>⟧ self.old self.new }
        ensures shows { both_shown L.Store R.Store self.new ≡ slice_set (both_shown L.Store R.Store self.old) i (Some block.now) }
        ensures left { L.Store.shown self.new.left ≡ slice_set (L.Store.shown self.old.left) i (Some block.now) }
        ensures right { R.Store.shown self.new.right ≡ slice_set (R.Store.shown self.old.right) i (Some block.now) }
    {
        self.write_halves(i, block);
    }
}

impl<L: Store, R: Store> Store for Mirror<L, R> {
    type Fault = StoreFault;

    ghost count = { both_count L.Store R.Store };

    ghost protected = { either_protected L.Store R.Store };

    ghost shown = { both_shown L.Store R.Store };

    ghost kept = { both_kept L.Store R.Store };

    ghost lengths = { λ s. mirror_lengths (L.Store.count s.left) (R.Store.count s.right) (L.Store.shown s.left) (R.Store.shown s.right) (L.Store.kept s.left) (R.Store.kept s.right) };

    fn count(&self) -> usize {
        self.left.count().min(self.right.count())
    }

    fn protected(&self) -> bool {
        self.left.protected() || self.right.protected()
    }

    fn read(&self, i: usize) -> Result<Block, StoreFault> {
        readable(i, self.count())?;
        self.read_both(i)
    }

    // What the trait asks, then that the write goes to both halves, or to none.
    fn write(&mut self, i: usize, block: &Block) -> Result<(), StoreFault>
        ensures answer { tells ⟦<StoreFault as BlockFault>⟧ result ≡ write_told ⟦<Mirror<L, R> as Store>⟧ self.old i }
        ensures writes { Writes ⟦<Mirror<L, R> as Store>⟧ i block.now self.old self.new }
        ensures left { L.Store.shown self.new.left ≡ once_written ⟦<Mirror<L, R> as Store>⟧ self.old i (L.Store.shown self.old.left) (slice_set (L.Store.shown self.old.left) i (Some block.now)) }
        ensures right { R.Store.shown self.new.right ≡ once_written ⟦<Mirror<L, R> as Store>⟧ self.old i (R.Store.shown self.old.right) (slice_set (R.Store.shown self.old.right) i (Some block.now)) }
    {
        writable(i, self.count(), self.protected())?;
        self.write_both(i, block);
        Ok(())
    }

    // What the trait asks, then that both halves are flushed.
    fn flush(&mut self)
        ensures flushes { Flushes ⟦<Mirror<L, R> as Store>⟧ self.old self.new }
        ensures left { Flushes L.Store self.old.left self.new.left }
        ensures right { Flushes R.Store self.old.right self.new.right }
    {
        self.left.flush();
        self.right.flush();
    }
}
