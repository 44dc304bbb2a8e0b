ghost use Rattle.std.specs.Prelude.{◌≡◌, OnOk};
ghost use Rattle.store.specs.Stores.{back_told, Writes};
ghost use Rattle.store.specs.Told.{tells};

use crate::store::{Block, Store};

// A block written, flushed and read again: any store that takes it gives it back, and keeps it.
pub fn round_trip<S: Store>(store: &mut S, i: usize, block: &Block) -> Result<Block, S::Fault>
    ensures answer { tells S.Fault.BlockFault result ≡ back_told S.Store store.old i block.now }
    ensures writes { Writes S.Store i block.now store.old store.new }
    ensures keeps { OnOk result (S.Store.kept store.new ≡ S.Store.shown store.new) }
{
    store.write(i, block)?;
    store.flush();
    store.read(i)
}
