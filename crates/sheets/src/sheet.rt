// A sheet of commands, checked and run.
ghost use Rattle.maps.specs.Maps.{kinds_of, Laid};
ghost use Rattle.std.specs.Prelude.{◌≡◌, ◌<◌, ◌≤◌, length, replicate, None, slice_set};
ghost use Rattle.sheets.specs.Checks.{IsTable};
ghost use Rattle.table.specs.Runs.{Stores};
ghost use Rattle.sheets.specs.Sheets.{fault_number, fault_place, all_rows_keyed, well_lent, Judged, RunsAll, SheetRun};

use crate::check::is_layout;
use cells::shape::Shape;
use kinds::key::Key;
use kinds::record::Record;
use kinds::value::Value;
use maps::{Answer, Command};
use table::commands::Table;
use table::resize::Scratch;

// Why a sheet is refused.
#[derive(Clone, Copy, PartialEq, Eq, Debug)]
pub enum SheetFault {
    // A command's row is no key's.
    Kind,
    // A lent thing has a wrong length.
    Lent,
    // The cells are not a layout of that shape.
    Cells,
}

// A refusal has a number and a place: a rule of the project.
impl SheetFault {
    pub fn number(self) -> u8
        ensures { result ≡ fault_number self }
    {
        match self {
            SheetFault::Kind => 9,
            SheetFault::Lent => 2,
            SheetFault::Cells => 10,
        }
    }

    pub fn place(self) -> usize
        ensures { result ≡ fault_place self }
    {
        0 // whatever the fault
    }
}

fn all_rows_keyed<K: Key, V: Value>(sheet: &[Command<K::Row, V>]) -> bool
    ensures { result ≡ all_rows_keyed (kinds_of K.Key.kind V.Value.kind) sheet.now }
{
    sheet
        .iter()
        .all(|command| K::from_row(command.row()).is_some())
}

// Of the lengths that cells, scratch, sheet and answers have.
fn is_well_lent(cells: usize, scratch: usize, sheet: usize, answers: usize) -> bool
    ensures { result ≡ well_lent cells scratch sheet answers }
{
    cells == 1024 && scratch == 1024 && sheet <= 64 && sheet <= answers
}

// Whether a sheet may run, and else why not.
fn check<K: Key, V: Value>(
    cells: &[Option<Record<K::Row, V>>],
    spare: usize,
    sheet: &[Command<K::Row, V>],
    room: usize,
    shape: Shape,
) -> Result<(), SheetFault>
    ensures { Judged (all_rows_keyed (kinds_of K.Key.kind V.Value.kind) sheet.now) (well_lent (length cells.now) spare (length sheet.now) room) (IsTable (kinds_of K.Key.kind V.Value.kind) shape.seed shape.count shape.capacity cells.now) result }
{
    if !all_rows_keyed::<K, V>(sheet) {
        return Err(SheetFault::Kind);
    }
    if !is_well_lent(cells.len(), spare, sheet.len(), room) {
        return Err(SheetFault::Lent);
    }
    if !is_layout::<K, V>(cells, shape) {
        return Err(SheetFault::Cells);
    }
    Ok(())
}

// Written in `run_all` itself, the proof that the place of an enum of a parameter fits into an address doesn't close.
fn write_answer<T: Copy>(answers: &mut [T], i: usize, answer: T)
    requires { i < length answers.old }
    ensures { answers.new ≡ slice_set answers.old i answer }
{
    answers[i] = answer;
}

// Runs the commands in turn.
fn run_all<K: Key, V: Value>(
    table: &mut Table<'_, K, V>,
    scratch: &mut Scratch<'_, Record<K::Row, V>>,
    sheet: &[Command<K::Row, V>],
    answers: &mut [Answer<V>],
)
    requires room { length sheet.now ≤ length answers.old }
    ensures runs { RunsAll (kinds_of K.Key.kind V.Value.kind) table.old.seed table.old.count sheet.now table.old.cells.now answers.old table.new.count table.new.cells.now scratch.new.cells.now answers.new }
    ensures cells_named { table.new.cells.ghost_name ≡ table.old.cells.ghost_name }
    ensures scratch_named { scratch.new.cells.ghost_name ≡ scratch.old.cells.ghost_name }
{
    // By index: of what is written through `zip` and `iter_mut`, a proof knows nothing afterwards.
    for (i, command) in sheet.iter().enumerate() {
        write_answer(answers, i, table.run(scratch, *command));
    }
}

// Runs a sheet on lent cells, scratch and answers: gives the count of records after it, or refuses and leaves all as it was.
pub fn run_sheet<K: Key, V: Value>(
    cells: &mut [Option<Record<K::Row, V>>],
    scratch: &mut [Option<Record<K::Row, V>>],
    sheet: &[Command<K::Row, V>],
    answers: &mut [Answer<V>],
    shape: Shape,
) -> Result<usize, SheetFault>
    ensures { SheetRun (kinds_of K.Key.kind V.Value.kind) shape.seed shape.count shape.capacity sheet.now (record { cells = cells.old; scratch = scratch.old; answers = answers.old }) (record { cells = cells.new; scratch = scratch.new; answers = answers.new }) result }
{
    check::<K, V>(cells, scratch.len(), sheet, answers.len(), shape)?;
    let mut spare = Scratch::new(scratch);
    let mut table = Table::<K, V>::new(cells, shape.seed, shape.count);
    run_all(&mut table, &mut spare, sheet, answers);
    Ok(table.count())
}
