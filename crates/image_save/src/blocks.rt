// The bytes of an image, written into the blocks of a store.
ghost use Rattle.std.specs.Prelude.{◌≡◌, ◌*◌, false, length};
ghost use Rattle.image_save.specs.Saves.{Rewritten};
ghost use Rattle.model.specs.Blocks.{blocks_of};

use store::store::Store;

// Writes every block of an unprotected store, and flushes it. The caller shows that the bytes are those of as many blocks.
pub(crate) fn write_all<S: Store>(store: &mut S, bytes: &[u8])
    requires open { S.Store.protected store.old ≡ false }
    requires whole { length bytes.now ≡ 32 * S.Store.count store.old }
    ensures rewritten { Rewritten S.Store store.old store.new }
    ensures shows { S.Store.shown store.new ≡ blocks_of (S.Store.count store.old) bytes.now }
{
    let (blocks, _) = bytes.as_chunks::<32>();
    for (i, block) in blocks.iter().enumerate() {
        let _ = store.write(i, block);
    }
    store.flush();
}
