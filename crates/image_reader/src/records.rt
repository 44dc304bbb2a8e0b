// The records of the cells whose bit stands.
ghost use Rattle.std.specs.Prelude.{◌≡◌, ◌+◌, ◌/◌, ◌<◌, ◌≤◌, length, drop, slice_set};
ghost use Rattle.image.specs.Opened.{front_of, cells_in};
ghost use Rattle.image_reader.specs.Parts.{record_or, place_of, Filled};
ghost use Rattle.maps.specs.Maps.{kinds_of};

use crate::bits::is_marked;
use image::fault::ImageFault;
use kinds::key::Key;
use kinds::record::Record;
use kinds::value::Value;

// The record whose code stands at `at`, with the length of that code; or the fault that none does.
fn record_at<K: Key, V: Value, F>(
    bytes: &[u8],
    at: usize,
) -> Result<(Record<K, V>, usize), ImageFault<F>>
    requires { at ≤ length bytes.now }
    ensures { result ≡ record_or at (front_of (kinds_of K.Key.kind V.Value.kind) (drop at bytes.now)) }
{
    Record::<K, V>::read(&bytes[at..]).map_err(|_| ImageFault::Record(at))
}

// Reads the cells, and gives the place behind their records.
pub(crate) fn read_cells<K: Key, V: Value, F>(
    bytes: &[u8],
    cells: &mut [Option<Record<K::Row, V>>],
) -> Result<usize, ImageFault<F>>
    requires { 32 + length cells.old / 8 ≤ length bytes.now }
    ensures answer { result ≡ place_of (cells_in (kinds_of K.Key.kind V.Value.kind) bytes.now (length cells.old)) }
    ensures cells { Filled (kinds_of K.Key.kind V.Value.kind) (cells_in (kinds_of K.Key.kind V.Value.kind) {F = F} bytes.now (length cells.old)) cells.new }
{
    let mut at = 32 + cells.len() / 8;
    for (c, cell) in cells.iter_mut().enumerate() {
        *cell = if is_marked(bytes, c) {
            let (found, n) = record_at::<K, V, F>(bytes, at)?;
            at += n;
            Some(found.to_row())
        } else {
            None
        };
    }
    Ok(at)
}
