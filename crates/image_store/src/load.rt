ghost use Rattle.std.specs.Prelude.{◌≡◌, ◌+◌, ◌*◌, ◌≤◌, length, replicate};
ghost use Rattle.image.specs.Told.{tells};
ghost use Rattle.image_store.specs.Loads.{load_answer, Loaded, opened_by, seed_and_count_told, cells_left, ReadsStore};
ghost use Rattle.maps.specs.Maps.{kinds_of};

use crate::wipe::Wipe;
use image::fault::ImageFault;
use image_reader::reader::read_image;
use kinds::key::Key;
use kinds::record::Record;
use kinds::value::Value;
use store::bytes::overwrite;
use store::store::Store;

// Copies every block into the work bytes, up to the first that is unreadable.
fn load<S: Store>(store: &S, work: &mut [u8]) -> Result<(), ImageFault<S::Fault>>
    requires { 32 * S.Store.count store.now ≤ length work.old }
    ensures answer { tells S.Fault.BlockFault result ≡ load_answer (S.Store.shown store.now) }
    ensures bytes { Loaded (S.Store.shown store.now) (S.Store.count store.now) work.new result }
{
    // The numbers are counted: of bytes that are written through `chunks_mut` nothing is known afterwards.
    for i in 0..store.count() {
        overwrite(work, 32 * i, &store.read(i)?);
    }
    Ok(())
}

// Reads the image that the store shows, through the work bytes, which end zero on each way out. A caller sees to it that they have room for every
// block, and that 1024 cells are lent: lent memory is a slice, as a rule of the project asks. Refused with the lowest unreadable block, else as
// `read_image` refuses. Each caller takes the pair apart at once.
pub fn read_store<S: Store, K: Key, V: Value>(
    store: &S,
    work: &mut [u8],
    cells: &mut [Option<Record<K::Row, V>>],
) -> Result<(u32, usize), ImageFault<S::Fault>>
    requires room { 32 * S.Store.count store.now ≤ length work.old }
    requires lent { length cells.old ≡ 1024 }
    ensures answer { tells S.Fault.BlockFault result ≡ seed_and_count_told (kinds_of K.Key.kind V.Value.kind) (opened_by (kinds_of K.Key.kind V.Value.kind) S.Fault.BlockFault (S.Store.shown store.now)) }
    ensures cells { cells.new ≡ cells_left (kinds_of K.Key.kind V.Value.kind) (length cells.old) (opened_by (kinds_of K.Key.kind V.Value.kind) S.Fault.BlockFault (S.Store.shown store.now)) }
    ensures work { work.new ≡ replicate (length work.old) 0 }
    ensures exact { ReadsStore (kinds_of K.Key.kind V.Value.kind) (S.Store.shown store.now) result cells.new }
{
    cells.fill(None);
    let guard = Wipe(work);
    load(store, &mut *guard.0)?;
    let end = 32 * store.count();
    read_image::<K, V, S::Fault>(&guard.0[..end], cells)
}
