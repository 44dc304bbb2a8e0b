ghost use Rattle.std.specs.Prelude.{◌≡◌, ℕ, ◌<◌, List, Some, length};
ghost use Rattle.store.specs.Places.{Place};

use crate::store::Block;

// How a block lies in a part of lent bytes.
pub trait Frame {
    ghost WIDTH: { ℕ };

    // What a part shows.
    ghost place: { List ℕ → Place };

    // The part that a block makes.
    ghost framed: { List ℕ → List ℕ };

    const WIDTH: usize;

    // The block in a part, if it is right.
    fn take(part: &[u8]) -> Option<Block>
        requires { length part.now ≡ WIDTH }
        ensures { result ≡ place part.now };

    // Makes a part of a block.
    fn put(part: &mut [u8], block: &Block)
        requires { length part.old ≡ WIDTH }
        ensures { part.new ≡ framed block.now };

    ghost positive: { 0 < WIDTH };

    ghost wide: { (b : List ℕ) → length b ≡ 32 → length (framed b) ≡ WIDTH };

    // What a block makes shows it.
    ghost back: { (b : List ℕ) → length b ≡ 32 → place (framed b) ≡ Some b };
}
