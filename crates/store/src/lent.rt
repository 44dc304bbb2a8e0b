ghost use Rattle.std.specs.Prelude.{◌≡◌, ◌*◌, ◌<◌, drop, Some, None, slice_index_or, slice_set};
ghost use Rattle.store.specs.Lent.{overwritten, lent_count, lent_places, lent_lengths};
ghost use Rattle.store.specs.Stores.{write_told, once_written, Writes, Flushes};
ghost use Rattle.store.specs.Told.{tells};

use crate::fault::{BlockFault, StoreFault, readable, writable};
use crate::frame::Frame;
use crate::store::{Block, Store};
use std::marker::PhantomData;

// Blocks that lie one behind the other in lent bytes, each in a part that `F` makes. What it shows it keeps at once. Lent
// memory is a slice, and protected or not is a yes or no that a store shows: rules of the project.
#[derive(Drop)]
pub struct LentStore<'a, F> {
    bytes: &'a mut [u8],
    locked: bool,
    frame: PhantomData<F>,
}

impl<'a, F> LentStore<'a, F> {
    pub fn new(bytes: &'a mut [u8], protected: bool) -> Self
        ensures bytes { result.bytes.now ≡ bytes.old }
        ensures named { result.bytes.ghost_name ≡ bytes.entry.ghost_name }
        ensures protect { result.locked ≡ protected }
    {
        LentStore {
            bytes,
            locked: protected,
            frame: PhantomData,
        }
    }
}

// Block `i` of the bytes, if it is right.
fn block_of<F: Frame>(bytes: &[u8], i: usize) -> Option<Block>
    requires { i < lent_count F.WIDTH bytes.now }
    ensures { result ≡ slice_index_or (lent_places F.WIDTH F.place bytes.now) i None }
{
    let start = i * F::WIDTH;
    F::take(&bytes[start..start + F::WIDTH])
}

// Writes block `i` of the bytes.
fn put_block<F: Frame>(bytes: &mut [u8], i: usize, block: &Block)
    requires { i < lent_count F.WIDTH bytes.old }
    ensures shows { lent_places F.WIDTH F.place bytes.new ≡ slice_set (lent_places F.WIDTH F.place bytes.old) i (Some block.now) }
    ensures bytes { bytes.new ≡ overwritten bytes.old (i * F.WIDTH) (F.framed block.now) }
    ensures tail { drop (lent_count F.WIDTH bytes.old * F.WIDTH) bytes.new ≡ drop (lent_count F.WIDTH bytes.old * F.WIDTH) bytes.old }
{
    let start = i * F::WIDTH;
    F::put(&mut bytes[start..start + F::WIDTH], block);
}

impl<'a, F: Frame> Store for LentStore<'a, F> {
    type Fault = StoreFault;

    ghost count = { λ s. lent_count F.WIDTH s.bytes.now };

    ghost protected = { λ s. s.locked };

    ghost shown = { λ s. lent_places F.WIDTH F.place s.bytes.now };

    ghost kept = { λ s. lent_places F.WIDTH F.place s.bytes.now };

    ghost lengths = { λ s. lent_lengths F.WIDTH F.place s.bytes.now };

    fn count(&self) -> usize {
        self.bytes.len() / F::WIDTH
    }

    fn protected(&self) -> bool {
        self.locked
    }

    fn read(&self, i: usize) -> Result<Block, StoreFault> {
        readable(i, self.count())?;
        block_of::<F>(self.bytes, i).ok_or(StoreFault::Unreadable(i))
    }

    // What the trait asks, then which of the lent bytes change: those of the block's part alone, and none past the last
    // whole part.
    fn write(&mut self, i: usize, block: &Block) -> Result<(), StoreFault>
        ensures answer { tells ⟦<StoreFault as BlockFault>⟧ result ≡ write_told ⟦<LentStore<'a, F> as Store>⟧ self.old i }
        ensures writes { Writes ⟦<LentStore<'a, F> as Store>⟧ i block.now self.old self.new }
        ensures bytes { self.new.bytes.now ≡ once_written ⟦<LentStore<'a, F> as Store>⟧ self.old i self.old.bytes.now (overwritten self.old.bytes.now (i * F.WIDTH) (F.framed block.now)) }
        ensures tail { drop (lent_count F.WIDTH self.old.bytes.now * F.WIDTH) self.new.bytes.now ≡ drop (lent_count F.WIDTH self.old.bytes.now * F.WIDTH) self.old.bytes.now }
        ensures named { self.new.bytes.ghost_name ≡ self.old.bytes.ghost_name }
    {
        writable(i, self.count(), self.protected())?;
        put_block::<F>(self.bytes, i, block);
        Ok(())
    }

    fn flush(&mut self)
        ensures flushes { Flushes ⟦<LentStore<'a, F> as Store>⟧ self.old self.new }
        ensures bytes { self.new.bytes.now ≡ self.old.bytes.now }
        ensures named { self.new.bytes.ghost_name ≡ self.old.bytes.ghost_name }
    {
        // Nothing is held back.
    }
}
