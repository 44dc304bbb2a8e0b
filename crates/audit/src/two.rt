ghost use Rattle.std.specs.Prelude.{ℕ};
ghost use Rattle.audit.specs.Pairs.{AuditsTwo, YesExactly, EqualImages, comparison, answered_two};
ghost use Rattle.contents.specs.Setups.{setup, meaning};

use crate::fault::AuditFault;
use crate::one::examine;
use compare::same_map;
use kinds::key::Key;
use kinds::record::Record;
use kinds::value::Value;
use store::store::Store;
use table::stored::Stored;

// Whether both stores show images of one map, under whatever seeds. The first is audited, then the second, each with cells of its own; the
// first that is refused ends it.
pub fn audit_two<S: Store, T: Store, K: Key, V: Value>(
    first: &S,
    first_cells: &mut [Option<Record<K::Row, V>>],
    second: &T,
    second_cells: &mut [Option<Record<K::Row, V>>],
    work: &mut [u8],
) -> Result<bool, AuditFault<S::Fault, T::Fault>>
    ensures audits { AuditsTwo (setup K.Key.kind V.Value.kind) (meaning S.Store first.now) (meaning T.Store second.now) first_cells.old second_cells.old work.old (comparison S.Fault.BlockFault T.Fault.BlockFault result first_cells.new second_cells.new work.new) }
    ensures yes { YesExactly (setup K.Key.kind V.Value.kind) (meaning S.Store first.now) (meaning T.Store second.now) first_cells.old second_cells.old work.old (answered_two S.Fault.BlockFault T.Fault.BlockFault result) }
    ensures equal { EqualImages (setup K.Key.kind V.Value.kind) (meaning S.Store first.now) (meaning T.Store second.now) first_cells.old second_cells.old work.old (answered_two S.Fault.BlockFault T.Fault.BlockFault result) }
{
    // A match: `map_err` was tried, and the borrow checker takes none to a type with a parameter more, as `First` makes it
    let (count, _) = match examine::<S, K, V>(first, first_cells, work) {
        Ok(found) => found,
        Err(fault) => return Err(AuditFault::First(fault)),
    };
    match examine::<T, K, V>(second, second_cells, work) {
        Ok((other_count, other_seed)) => {
            let other = Stored::<K, V>::new(second_cells, other_seed, other_count);
            let same = same_map(first_cells, count, &other);
            first_cells.fill(None);
            second_cells.fill(None);
            Ok(same)
        }
        Err(fault) => {
            first_cells.fill(None);
            Err(AuditFault::Second(fault))
        }
    }
}
