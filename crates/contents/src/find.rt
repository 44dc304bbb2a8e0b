ghost use Rattle.std.specs.Prelude.{◌≡◌, ℕ};
ghost use Rattle.contents.specs.Faults.{told_if};
ghost use Rattle.contents.specs.Finds.{Finds, reading};
ghost use Rattle.contents.specs.Setups.{setup, meaning};
ghost use Rattle.model.specs.Refusals.{start_refusal, begin_refusal};

use crate::fault::RegisterFault;
use image_store::load::read_store;
use kinds::key::Key;
use kinds::record::Record;
use kinds::value::Value;
use store::fault::BlockFault;
use store::store::Store;

// The size of a store and the number of cells, which are looked at before a batch is opened.
pub fn check_room<F: BlockFault>(blocks: usize, room: usize) -> Result<(), RegisterFault<F>>
    ensures { told_if F.BlockFault result ≡ start_refusal blocks room }
{
    if blocks == 0 || blocks > 2048 {
        return Err(RegisterFault::Size);
    }
    if room != 1024 {
        return Err(RegisterFault::Lent);
    }
    Ok(())
}

// Sees to the lengths first, so that the store is read only where they are right.
fn check_lengths<F: BlockFault>(
    blocks: usize,
    room: usize,
    work: usize,
) -> Result<(), RegisterFault<F>>
    ensures { told_if F.BlockFault result ≡ begin_refusal blocks room work }
{
    check_room(blocks, room)?;
    if work < 32 * blocks {
        return Err(RegisterFault::Lent);
    }
    Ok(())
}

// The seed and the count of the image that the store shows, whose layout is left in the cells; or begin's refusals. A pair,
// since each caller takes it apart at once.
pub fn find_contents<S: Store, K: Key, V: Value>(
    store: &S,
    cells: &mut [Option<Record<K::Row, V>>],
    work: &mut [u8],
) -> Result<(u32, usize), RegisterFault<S::Fault>>
    ensures { Finds (setup K.Key.kind V.Value.kind) (meaning S.Store store.now) cells.old work.old (reading S.Fault.BlockFault result cells.new work.new) }
{
    check_lengths(store.count(), cells.len(), work.len())?;
    Ok(read_store::<S, K, V>(store, work, cells)?)
}
