ghost use Rattle.std.specs.Prelude.{◌≡◌, ℕ, ◌*◌, ◌≤◌, false, length, replicate};
ghost use Rattle.image_save.specs.Saves.{Rewritten, ShowsImage};
ghost use Rattle.image_writer.specs.Writes.{HasRoom};
ghost use Rattle.maps.specs.Maps.{kinds_of};

use crate::blocks::write_all;
use image_store::wipe::Wipe;
use image_writer::writer::write_image;
use kinds::key::Key;
use kinds::record::Record;
use kinds::value::Value;
use store::store::Store;

// Writes the image of what the cells hold into every block of the store, and flushes it. It goes through the work bytes, which end zero.
// A caller sees to it that the store is not protected, that the work bytes suffice, and that the image fits: lent memory is a
// slice, as a rule of the project asks, so clauses tell its length.
pub fn save_image<S: Store, K: Key, V: Value>(
    store: &mut S,
    cells: &[Option<Record<K::Row, V>>],
    count: usize,
    seed: u32,
    work: &mut [u8],
)
    requires open { S.Store.protected store.old ≡ false }
    requires suffice { 32 * S.Store.count store.old ≤ length work.old }
    requires room { HasRoom (kinds_of K.Key.kind V.Value.kind) seed count cells.now (32 * S.Store.count store.old) }
    ensures rewritten { Rewritten S.Store store.old store.new }
    ensures shows { ShowsImage (kinds_of K.Key.kind V.Value.kind) seed count cells.now (S.Store.count store.old) (S.Store.shown store.new) }
    ensures work { work.new ≡ replicate (length work.old) 0 }
{
    let guard = Wipe(work);
    let bytes = &mut guard.0[..32 * store.count()];
    write_image::<K, V>(cells, count, seed, bytes);
    write_all(store, bytes);
}
