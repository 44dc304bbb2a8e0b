// Records copied out of cells, in cell order.
ghost use Rattle.std.specs.Prelude.{◌≡◌, ◌≤◌, map, length, Some};
ghost use Rattle.model.specs.Steps.{in_cells, over_first};

// Copies what the cells hold to the first places of the output, which the caller shows to have room.
// By place: of what is written through `zip` and `iter_mut`, a proof knows nothing afterwards.
pub(crate) fn copy_filled<T: Copy>(cells: &[Option<T>], output: &mut [Option<T>])
    requires { length (in_cells cells.now) ≤ length output.old }
    ensures { output.new ≡ over_first (map Some (in_cells cells.now)) output.old }
{
    for (place, record) in cells.iter().flatten().enumerate() {
        output[place] = Some(*record);
    }
}
