// Seal: the image of the batch, written into the store.
ghost use Rattle.std.specs.Prelude.{◌≡◌, ℕ, ◌*◌, nat_lt};
ghost use Rattle.contents.specs.Setups.{setup};
ghost use Rattle.model.specs.Claims.{ListsOfCalls};
ghost use Rattle.model.specs.Steps.{Step};
ghost use Rattle.register.specs.Seals.{SealSeen, seal_event};
ghost use Rattle.register.specs.Worlds.{open_world};

use super::{Open, Sealing, Token};
use cells::shape::Shape;
use contents::fault::RegisterFault;
use image_save::save::save_image;
use image_writer::writer::image_len;
use kinds::key::Key;
use kinds::record::Record;
use kinds::value::Value;
use store::store::Store;

// Whether so many bytes are more than the blocks have. Nothing bounds the blocks here, so they are not multiplied.
fn more(bytes: usize, blocks: usize) -> bool
    ensures { result ≡ nat_lt (32 * blocks) bytes }
{
    bytes.div_ceil(32) > blocks
}

// Why seal is refused, if it is: all that it looks at before it writes, in the order of the refusals.
fn check_seal<S: Store, K: Key, V: Value>(
    batch: &Open<S>,
    cells: &[Option<Record<K::Row, V>>],
    work: &[u8],
) -> Result<(), RegisterFault<S::Fault>>
    ensures { SealSeen K.Key.kind V.Value.kind S.Fault.BlockFault S.Store batch.now cells.now work.now result }
{
    let blocks = batch.store.count();
    batch.check_lent::<K, V>(cells.len(), work.len() / 32, blocks)?;
    batch.check_cells::<K, V>(cells)?;
    let long = image_len::<K, V>(cells, batch.shape.count);
    if more(long, blocks) {
        return Err(RegisterFault::Short);
    }
    if batch.store.protected() {
        return Err(RegisterFault::Protected);
    }
    Ok(())
}

// The step of seal.
fn seal_batch<S: Store, K: Key, V: Value>(
    mut batch: Open<S>,
    token: Token,
    cells: &mut [Option<Record<K::Row, V>>],
    work: &mut [u8],
) -> Sealing<S>
    ensures { Step (setup K.Key.kind V.Value.kind) (open_world S.Store batch cells.old) (seal_event S.Fault.BlockFault S.Store work.old result cells.new work.new) }
{
    if let Err(fault) = check_seal::<S, K, V>(&batch, cells, work) {
        return Err((batch, token, fault));
    }
    let Shape { seed, count, .. } = batch.shape;
    save_image::<S, K, V>(&mut batch.store, cells, count, seed, work);
    cells.fill(None);
    Ok(batch.close(token))
}

// Writes every block with the image of the batch's seed and map, and flushes. `lists` is the claim over all lists of calls.
pub fn seal<S: Store, K: Key, V: Value>(
    batch: Open<S>,
    token: Token,
    cells: &mut [Option<Record<K::Row, V>>],
    work: &mut [u8],
) -> Sealing<S>
    ensures step { Step (setup K.Key.kind V.Value.kind) (open_world S.Store batch cells.old) (seal_event S.Fault.BlockFault S.Store work.old result cells.new work.new) }
    ensures lists { ListsOfCalls (setup K.Key.kind V.Value.kind) }
{
    seal_batch::<S, K, V>(batch, token, cells, work)
}
