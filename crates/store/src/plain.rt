ghost use Rattle.std.specs.Prelude.{Some, refl};
ghost use Rattle.std.proofs.Common.{arith};

use crate::bytes::block_at;
use crate::frame::Frame;
use crate::lent::LentStore;
use crate::store::Block;

// A block by itself, which is always right.
#[derive(Clone, Copy, Debug, PartialEq, Eq)]
pub struct Plain;

// Blocks that lie one behind the other in lent bytes.
pub type PlainStore<'a> = LentStore<'a, Plain>;

impl Frame for Plain {
    ghost WIDTH = { 32 };

    ghost place = { λ part. Some part };

    ghost framed = { λ b. b };

    const WIDTH: usize = 32;

    fn take(part: &[u8]) -> Option<Block> {
        Some(block_at(part, 0))
    }

    fn put(part: &mut [u8], block: &Block) {
        part.copy_from_slice(block);
    }

    ghost positive = { omega arith };

    ghost wide = { λ b e. e };

    ghost back = { λ b e. refl };
}
