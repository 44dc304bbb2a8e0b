// The writer, and the length by which a store is too short.
ghost use Rattle.std.specs.Prelude.{◌≡◌, ◌<◌, ◌≤◌, length, replicate};
ghost use Rattle.image.specs.Image.{header};
ghost use Rattle.image.specs.Laws.{ImageLaws};
ghost use Rattle.image_writer.specs.Writes.{LongAs, HasRoom, ImageOf};
ghost use Rattle.kinds.specs.Records.{written};
ghost use Rattle.maps.specs.Maps.{kinds_of};

use crate::bits::put_bits;
use crate::codes::{codes_len, put_codes};
use cells::ring::{capacity_of, power_of};
use kinds::key::Key;
use kinds::record::Record;
use kinds::value::Value;

fn put_header<K: Key, V: Value>(power: u8, count: u16, seed: u32, out: &mut [u8])
    requires { 32 ≤ length out.old }
    ensures { out.new ≡ written out.old 0 (header K.Key.kind.number V.Value.kind.number power count seed) }
{
    let mut head = [0; 32];
    head[..4].copy_from_slice(&[1, K::kind_number(), V::kind_number(), power]);
    head[4..6].copy_from_slice(&count.to_be_bytes());
    head[8..12].copy_from_slice(&seed.to_be_bytes());
    out[..32].copy_from_slice(&head);
}

// The length of the image, up to its last record, of the map of `count` records whose layout the cells are, whatever its seed.
// Lent memory is a slice, as a rule of the project asks, so a clause and not a type tells its length.
pub fn image_len<K: Key, V: Value>(cells: &[Option<Record<K::Row, V>>], count: usize) -> usize
    requires { length cells.now ≤ 1024 }
    ensures { LongAs (kinds_of K.Key.kind V.Value.kind) count cells.now result }
{
    32 + capacity_of(count) / 8 + codes_len::<K, V>(cells)
}

// Fills the bytes of a whole store with the image of the map of `count` records whose layout under `seed` the cells are. A caller sees to it that
// they are one, and by `image_len` that the image has room.
pub fn write_image<K: Key, V: Value>(
    cells: &[Option<Record<K::Row, V>>],
    count: usize,
    seed: u32,
    out: &mut [u8],
)
    requires { HasRoom (kinds_of K.Key.kind V.Value.kind) seed count cells.now (length out.old) }
    ensures image { ImageOf (kinds_of K.Key.kind V.Value.kind) seed count cells.now (length out.old) out.new }
    ensures laws { ImageLaws ⊥ (kinds_of K.Key.kind V.Value.kind) }
{
    let cap = capacity_of(count);
    let layout = &cells[..cap];
    out.fill(0);
    put_header::<K, V>(power_of(count), count as u16, seed, out);
    put_bits(layout, &mut out[32..32 + cap / 8]);
    put_codes::<K, V>(layout, out, 32 + cap / 8);
}
