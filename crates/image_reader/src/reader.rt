// The reader: the checks one after the other, up to the first fault.
ghost use Rattle.std.specs.Prelude.{◌≡◌, ◌≤◌, length};
ghost use Rattle.image.specs.Laws.{ImageLaws};
ghost use Rattle.image.specs.Opened.{unless, tail_check, opened};
ghost use Rattle.image.specs.declared.fault.ImageFault.TheVariants.{Layout};
ghost use Rattle.cells.specs.Rows.{row_rule};
ghost use Rattle.layout.specs.Places.{first_out};
ghost use Rattle.image_reader.specs.Parts.{Kept};
ghost use Rattle.image_reader.specs.Reads.{seed_and_count, cells_after, ReadsImage};
ghost use Rattle.maps.specs.Maps.{kinds_of};

use crate::bits::{capacity, check_bits};
use crate::header::{byte_at, check_header, count_at, seed_at};
use crate::records::read_cells;
use cells::places::first_out_of_place;
use image::fault::ImageFault;
use kinds::key::Key;
use kinds::record::Record;
use kinds::value::Value;

// The rows of the cells are those of keys, so their places are those of the keys. That 1024 cells are the most is a
// clause, since lent memory is a slice.
fn check_layout<K: Key, V: Value, F>(
    cells: &[Option<Record<K::Row, V>>],
    seed: u32,
) -> Result<(), ImageFault<F>>
    requires { length cells.now ≤ 1024 }
    ensures { result ≡ unless Layout (first_out (row_rule (kinds_of K.Key.kind V.Value.kind) seed (length cells.now)) cells.now) }
{
    // A match: `map_or` would ask of callers that a fault can be dropped, and `map_or_else` takes two closures for two arms.
    match first_out_of_place::<K, V>(cells, seed) {
        Some(i) => Err(ImageFault::Layout(i)),
        None => Ok(()),
    }
}

fn check_tail<F>(bytes: &[u8], end: usize) -> Result<(), ImageFault<F>>
    ensures { result ≡ tail_check bytes.now end }
{
    // A match: `map_or` would ask of callers that a fault can be dropped, and `map_or_else` takes two closures for two arms.
    match bytes.iter().skip(end).position(|&byte| byte != 0) {
        Some(i) => Err(ImageFault::Tail(end + i)),
        None => Ok(()),
    }
}

// A refusal leaves any cells. Seed and count are a pair, since each caller takes it apart at once.
fn scan<K: Key, V: Value, F>(
    bytes: &[u8],
    cells: &mut [Option<Record<K::Row, V>>],
) -> Result<(u32, usize), ImageFault<F>>
    requires { length cells.old ≡ 1024 }
    ensures answer { result ≡ seed_and_count (opened (kinds_of K.Key.kind V.Value.kind) bytes.now) }
    ensures cells { Kept (kinds_of K.Key.kind V.Value.kind) (opened {F = F} (kinds_of K.Key.kind V.Value.kind) bytes.now) cells.old cells.new }
{
    check_header::<K, V, F>(bytes)?;
    let cap = capacity(byte_at(bytes, 3));
    check_bits::<F>(bytes, cap)?;
    let layout = &mut cells[..cap];
    let end = read_cells::<K, V, F>(bytes, layout)?;
    let seed = seed_at(bytes);
    check_layout::<K, V, F>(layout, seed)?;
    check_tail::<F>(bytes, end)?;
    Ok((seed, count_at(bytes)))
}

// The seed and the count of the image that the bytes are, its layout in the lent cells and all beyond it empty; or the first fault, and all cells
// empty. The bytes are those of a whole store; a caller sees to it that 1024 cells are lent. `exact` says that it accepts exactly the images.
// Lent memory is a slice, as a rule of the project asks, so a clause and not a type tells its length.
pub fn read_image<K: Key, V: Value, F>(
    bytes: &[u8],
    cells: &mut [Option<Record<K::Row, V>>],
) -> Result<(u32, usize), ImageFault<F>>
    requires { length cells.old ≡ 1024 }
    ensures answer { result ≡ seed_and_count (opened (kinds_of K.Key.kind V.Value.kind) bytes.now) }
    ensures cells { cells.new ≡ cells_after (kinds_of K.Key.kind V.Value.kind) (length cells.old) (opened {F = F} (kinds_of K.Key.kind V.Value.kind) bytes.now) }
    ensures exact { ReadsImage (kinds_of K.Key.kind V.Value.kind) bytes.now result cells.new }
    ensures laws { ImageLaws F (kinds_of K.Key.kind V.Value.kind) }
{
    cells.fill(None);
    let answer = scan::<K, V, F>(bytes, cells);
    if answer.is_err() {
        cells.fill(None);
    }
    answer
}
