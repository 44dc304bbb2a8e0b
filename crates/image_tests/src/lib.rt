// Images read and written again.
#![tactic(auto)]

ghost use Rattle.image_tests.specs.Example.{ExampleImage, ExampleRefusals};
ghost use Rattle.std.specs.Prelude.{◌≡◌, length, OnOk};

use image::fault::ImageFault;
use image_reader::reader::read_image;
use image_writer::writer::write_image;
use kinds::key::Key;
use kinds::record::Record;
use kinds::value::Value;

#[cfg(test)]
mod largest;
#[cfg(test)]
mod tests;

// Reads an image and writes it again: what is accepted comes out byte for byte. A caller lends 1024 cells, and as many bytes as it gives.
// Lent memory is a slice, as a rule of the project asks, so clauses and not types tell its lengths.
pub fn copy_image<K: Key, V: Value, F>(
    bytes: &[u8],
    cells: &mut [Option<Record<K::Row, V>>],
    out: &mut [u8],
) -> Result<usize, ImageFault<F>>
    requires lent { length cells.old ≡ 1024 }
    requires room { length out.old ≡ length bytes.now }
    ensures { OnOk result (out.new ≡ bytes.now) }
{
    let (seed, count) = read_image::<K, V, F>(bytes, cells)?;
    write_image::<K, V>(cells, count, seed, out);
    Ok(count)
}

// The worked example, and what is refused of it with one thing changed.
pub fn example_blocks() -> usize
    ensures image { ExampleImage }
    ensures refusals { ExampleRefusals }
    ensures blocks { result ≡ 2 }
{
    64 / 32
}
