// Growing and shrinking, through scratch.
ghost use Rattle.std.specs.Prelude.{◌≡◌, ◌-◌, ◌++◌, length, take, replicate, None, ◌≢◌};
ghost use Rattle.layout.specs.Cells.{layout, records_of};
ghost use Rattle.maps.specs.Maps.{kinds_of};
ghost use Rattle.cells.specs.Rows.{row_order, row_rule};
ghost use Rattle.table.specs.Rows.{Resizable};

use crate::walks::gather;
use kinds::key::Key;
use kinds::record::Record;
use kinds::value::Value;

// Empty cells, through which others are laid out anew.
#[derive(Drop)]
pub struct Scratch<'a, R: Copy> {
    pub(crate) cells: &'a mut [Option<R>],
    ghost spare: { length cells.now ≡ 1024 },
    ghost empty: { cells.now ≡ replicate (length cells.now) None },
}

impl<'a, R: Copy> Scratch<'a, R> {
    // Empties the cells. Their number stands in a clause, since lent memory is a slice: a rule of the project.
    pub fn new(cells: &'a mut [Option<R>]) -> Self
        requires { length cells.old ≡ 1024 }
        ensures { result.cells.ghost_name ≡ cells.entry.ghost_name }
    {
        cells.fill(None);
        Scratch { cells }
    }
}

// Lays the records of the first `size` cells out anew in the first `wanted` ones, through as many empty cells of scratch.
// Its callers show that scratch is empty, and it is left so.
pub fn resize<K: Key, V: Value>(
    cells: &mut [Option<Record<K::Row, V>>],
    scratch: &mut [Option<Record<K::Row, V>>],
    seed: u32,
    size: usize,
    wanted: usize,
)
    requires { Resizable (kinds_of K.Key.kind V.Value.kind) seed cells.old scratch.old size wanted }
    ensures laid { cells.new ≡ layout (row_rule (kinds_of K.Key.kind V.Value.kind) seed wanted) (records_of (row_order (kinds_of K.Key.kind V.Value.kind)) (take size cells.old)) ++ replicate (length cells.old - wanted) None }
    ensures scratch { scratch.new ≡ scratch.old }
{
    gather::<K, V>(&cells[..size], &mut scratch[..wanted], seed);
    cells.copy_from_slice(scratch);
    scratch.fill(None);
}

// `resize` where another number of cells is wanted; else nothing. So its clauses stand again: with the look in `resize`
// itself, `add` and `take_out` would not write the cells in a straight line, as the proof of their types wants it.
pub(crate) fn fit<K: Key, V: Value>(
    cells: &mut [Option<Record<K::Row, V>>],
    scratch: &mut [Option<Record<K::Row, V>>],
    seed: u32,
    size: usize,
    wanted: usize,
)
    requires { Resizable (kinds_of K.Key.kind V.Value.kind) seed cells.old scratch.old size wanted }
    ensures kept { wanted ≡ size → cells.new ≡ cells.old }
    ensures laid { wanted ≢ size → cells.new ≡ layout (row_rule (kinds_of K.Key.kind V.Value.kind) seed wanted) (records_of (row_order (kinds_of K.Key.kind V.Value.kind)) (take size cells.old)) ++ replicate (length cells.old - wanted) None }
    ensures scratch { scratch.new ≡ scratch.old }
{
    if wanted != size {
        resize::<K, V>(cells, scratch, seed, size, wanted);
    }
}
