ghost use Rattle.std.specs.Prelude.{ℕ};
ghost use Rattle.audit.specs.Audits.{Examines, Audits};
ghost use Rattle.contents.specs.Finds.{reading};
ghost use Rattle.contents.specs.Setups.{setup, meaning};

use contents::fault::RegisterFault;
use contents::find::find_contents;
use kinds::key::Key;
use kinds::record::Record;
use kinds::value::Value;
use store::store::Store;

// An audit that leaves the layout in the cells, for one who looks further.
pub(crate) fn examine<S: Store, K: Key, V: Value>(
    store: &S,
    cells: &mut [Option<Record<K::Row, V>>],
    work: &mut [u8],
) -> Result<(usize, u32), RegisterFault<S::Fault>>
    ensures { Examines (setup K.Key.kind V.Value.kind) (meaning S.Store store.now) cells.old work.old (reading S.Fault.BlockFault result cells.new work.new) }
{
    let (seed, count) = find_contents::<S, K, V>(store, cells, work)?;
    // a rule of the project: an audit answers the count first
    Ok((count, seed))
}

// The count and the seed of the image that the store shows, or begin's refusals. The store is only read; the cells end empty and the work
// bytes zero, and where a length is wrong nothing is touched.
pub fn audit<S: Store, K: Key, V: Value>(
    store: &S,
    cells: &mut [Option<Record<K::Row, V>>],
    work: &mut [u8],
) -> Result<(usize, u32), RegisterFault<S::Fault>>
    ensures { Audits (setup K.Key.kind V.Value.kind) (meaning S.Store store.now) cells.old work.old (reading S.Fault.BlockFault result cells.new work.new) }
{
    let found = examine::<S, K, V>(store, cells, work)?;
    cells.fill(None);
    Ok(found)
}
