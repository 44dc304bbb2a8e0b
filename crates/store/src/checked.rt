ghost use Rattle.std.specs.Prelude.{◌≡◌, ◌<◌, ◌++◌, length};
ghost use Rattle.std.proofs.Common.{arith};
ghost use Rattle.store.specs.Sums.{sums, sums_more, checked_place};
ghost use Rattle.store.specs.Summed.{length_summed, summed_shows};

use crate::bytes::{block_at, overwrite};
use crate::frame::Frame;
use crate::lent::LentStore;
use crate::store::Block;

// A block with its two Fletcher sums behind it, and right if they are its own.
#[derive(Clone, Copy, Debug, PartialEq, Eq)]
pub struct Checked;

// Blocks in lent bytes, each with its sums behind it.
pub type CheckedStore<'a> = LentStore<'a, Checked>;

// Both sums, once one byte more has gone in. In 32 bits, since with 16 a write took up to twice as long.
fn with_byte(s1: u32, s2: u32, x: u8) -> (u32, u32)
    requires { (s1 < 255) × (s2 < 255) }
    ensures { result ≡ sums_more s1 s2 x }
{
    let t1 = (s1 + u32::from(x)) % 255;
    let t2 = (s2 + t1) % 255;
    (t1, t2)
}

// The two Fletcher sums of some bytes. A `fold` over the pair would be no plainer than this `for`.
pub fn fletcher(bytes: &[u8]) -> [u8; 2]
    ensures { result ≡ sums bytes.now }
{
    let (mut s1, mut s2) = (0, 0);
    for x in bytes {
        (s1, s2) = with_byte(s1, s2, *x);
    }
    [s1 as u8, s2 as u8]
}

impl Frame for Checked {
    ghost WIDTH = { 34 };

    ghost place = { checked_place };

    ghost framed = { λ b. b ++ sums b };

    const WIDTH: usize = 34;

    fn take(part: &[u8]) -> Option<Block> {
        let block = block_at(part, 0);
        let sums = fletcher(&block);
        (part[32..34] == sums[..]).then_some(block)
    }

    fn put(part: &mut [u8], block: &Block) {
        overwrite(part, 0, block);
        overwrite(part, 32, &fletcher(block));
    }

    ghost positive = { omega arith };

    ghost wide = { length_summed };

    ghost back = { summed_shows };
}
