// A round of calls, from a closed register to a closed register.
ghost use Rattle.std.specs.Prelude.{ℕ};
ghost use Rattle.contents.specs.Setups.{setup};
ghost use Rattle.model.specs.Runs.{Ran};
ghost use Rattle.register.specs.Worlds.{closed_world};

use super::Closed;
use super::ends::abandon;
use super::enters::enter;
use super::opens::start;
use super::seals::seal;
use kinds::key::Key;
use kinds::record::Record;
use kinds::value::Value;
use maps::{Answer, Command};
use store::store::Store;

// Starts a batch, enters the sheet and seals; what can't be sealed is abandoned. The calls made are a list of calls
// of the kind that the claims speak of, so these are not empty. The pieces are lent as slices: a rule of the project.
pub fn keep_sheet<S: Store, K: Key, V: Value>(
    closed: Closed<S>,
    seed: u32,
    cells: &mut [Option<Record<K::Row, V>>],
    scratch: &mut [Option<Record<K::Row, V>>],
    sheet: &[Command<K::Row, V>],
    answers: &mut [Answer<V>],
    work: &mut [u8],
) -> Closed<S>
    ensures { Ran (setup K.Key.kind V.Value.kind) (closed_world S.Store closed cells.old) (closed_world S.Store result cells.new) }
{
    match start::<S, K, V>(closed, seed, cells) {
        Err((closed, _)) => closed,
        Ok((mut batch, token)) => {
            let _ = enter::<S, K, V>(&mut batch, cells, scratch, sheet, answers);
            match seal::<S, K, V>(batch, token, cells, work) {
                Ok(closed) => closed,
                Err((batch, token, _)) => abandon::<S, K, V>(batch, token, cells),
            }
        }
    }
}
