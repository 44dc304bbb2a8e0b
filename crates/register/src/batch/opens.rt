// Start and begin.
ghost use Rattle.std.specs.Prelude.{◌≡◌, ℕ};
ghost use Rattle.contents.specs.Setups.{setup};
ghost use Rattle.model.specs.Steps.{Step};
ghost use Rattle.model.specs.Worlds.{Call, no_piece, work_piece};
ghost use Rattle.register.specs.Worlds.{closed_world, opening_event};

use super::{Closed, Opening};
use contents::fault::RegisterFault;
use contents::find::{check_room, find_contents};
use kinds::key::Key;
use kinds::record::Record;
use kinds::value::Value;
use store::fault::BlockFault;
use store::store::Store;

// Opens a batch with no records under the seed. The cells are emptied.
pub fn start<S: Store, K: Key, V: Value>(
    closed: Closed<S>,
    seed: u32,
    cells: &mut [Option<Record<K::Row, V>>],
) -> Opening<S>
    ensures { Step (setup K.Key.kind V.Value.kind) (closed_world S.Store closed cells.old) (opening_event (Call.start seed) no_piece S.Fault.BlockFault S.Store result cells.new no_piece) }
{
    // Not `?`, here and in `seal`: what the call used up goes back with the fault.
    if let Err(fault) = check_room(closed.store.count(), cells.len()) {
        return Err((closed, fault));
    }
    cells.fill(None);
    Ok(closed.open::<K, V>(seed, 0))
}

// Opens a batch with the seed and the map whose image the store shows.
pub fn begin<S: Store, K: Key, V: Value>(
    closed: Closed<S>,
    cells: &mut [Option<Record<K::Row, V>>],
    work: &mut [u8],
) -> Opening<S>
    ensures { Step (setup K.Key.kind V.Value.kind) (closed_world S.Store closed cells.old) (opening_event Call.begin (work_piece work.old) S.Fault.BlockFault S.Store result cells.new (work_piece work.new)) }
{
    // A match, since the closed register goes into either answer.
    match find_contents::<S, K, V>(&closed.store, cells, work) {
        Ok((seed, count)) => Ok(closed.open::<K, V>(seed, count)),
        Err(fault) => Err((closed, fault)),
    }
}
