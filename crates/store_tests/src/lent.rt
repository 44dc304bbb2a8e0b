ghost use Rattle.std.specs.Prelude.{◌≡◌, ◌*◌, false, ◌++◌, drop};
ghost use Rattle.store.specs.Answers.{write_answer, after_write};
ghost use Rattle.store.specs.Lent.{overwritten, lent_count, plain_count};
ghost use Rattle.store.specs.Sums.{sums, checked_count};
ghost use Rattle.store.specs.Told.{tells};

use store::checked::CheckedStore;
use store::fault::{BlockFault, StoreFault};
use store::frame::Frame;
use store::lent::LentStore;
use store::plain::PlainStore;
use store::store::{Block, Store};

// One write through a store over lent bytes: the lender knows each byte after it.
pub fn write_lent<F: Frame>(bytes: &mut [u8], i: usize, block: &Block) -> Result<(), StoreFault>
    ensures answer { tells ⟦<StoreFault as BlockFault>⟧ result ≡ write_answer (lent_count F.WIDTH bytes.old) false i }
    ensures bytes { bytes.new ≡ after_write (lent_count F.WIDTH bytes.old) false i bytes.old (overwritten bytes.old (i * F.WIDTH) (F.framed block.now)) }
    ensures tail { drop (lent_count F.WIDTH bytes.old * F.WIDTH) bytes.new ≡ drop (lent_count F.WIDTH bytes.old * F.WIDTH) bytes.old }
{
    let mut store = LentStore::<F>::new(bytes, false);
    store.write(i, block)
}

// The same through a plain store, in the words of its own bytes.
pub fn write_plain(bytes: &mut [u8], i: usize, block: &Block) -> Result<(), StoreFault>
    ensures answer { tells ⟦<StoreFault as BlockFault>⟧ result ≡ write_answer (plain_count bytes.old) false i }
    ensures bytes { bytes.new ≡ after_write (plain_count bytes.old) false i bytes.old (overwritten bytes.old (i * 32) block.now) }
    ensures tail { drop (plain_count bytes.old * 32) bytes.new ≡ drop (plain_count bytes.old * 32) bytes.old }
{
    let mut store = PlainStore::new(bytes, false);
    store.write(i, block)
}

// The same through a checked store: the block's sums stand behind it.
pub fn write_checked(bytes: &mut [u8], i: usize, block: &Block) -> Result<(), StoreFault>
    ensures answer { tells ⟦<StoreFault as BlockFault>⟧ result ≡ write_answer (checked_count bytes.old) false i }
    ensures bytes { bytes.new ≡ after_write (checked_count bytes.old) false i bytes.old (overwritten bytes.old (i * 34) (block.now ++ sums block.now)) }
    ensures tail { drop (checked_count bytes.old * 34) bytes.new ≡ drop (checked_count bytes.old * 34) bytes.old }
{
    let mut store = CheckedStore::new(bytes, false);
    store.write(i, block)
}
