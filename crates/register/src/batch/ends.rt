// Abandon.
ghost use Rattle.std.specs.Prelude.{ℕ};
ghost use Rattle.contents.specs.Setups.{setup};
ghost use Rattle.model.specs.Steps.{Step};
ghost use Rattle.model.specs.Worlds.{Call, Outcome};
ghost use Rattle.register.specs.Worlds.{closed_world, open_world, plain_event};

use super::{Closed, Open, Token};
use kinds::key::Key;
use kinds::record::Record;
use kinds::value::Value;
use store::store::Store;

// Gives the batch up. All lent cells are emptied; the store stays as it is.
pub fn abandon<S: Store, K: Key, V: Value>(
    batch: Open<S>,
    token: Token,
    cells: &mut [Option<Record<K::Row, V>>],
) -> Closed<S>
    ensures { Step (setup K.Key.kind V.Value.kind) (open_world S.Store batch cells.old) (plain_event Call.abandon Outcome.accepted (closed_world S.Store result cells.new)) }
{
    cells.fill(None);
    batch.close(token)
}
