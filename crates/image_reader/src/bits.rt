// The bit map.
ghost use Rattle.std.specs.Prelude.{◌≡◌, ◌^◌, ◌≤◌};
ghost use Rattle.image.specs.Bits.{ones};
ghost use Rattle.image.specs.Opened.{marked, bits_check};

use crate::header::{byte_at, count_at};
use image::fault::ImageFault;

pub(crate) fn capacity(power: u8) -> usize
    requires { power ≤ 10 }
    ensures { result ≡ 2 ^ power }
{
    1 << power
}

// Whether the bit of cell `c` stands.
pub(crate) fn is_marked(bytes: &[u8], c: usize) -> bool
    ensures { result ≡ marked bytes.now c }
{
    (byte_at(bytes, 32 + c / 8) >> (c % 8)) % 2 == 1
}

fn count_marked(bytes: &[u8], cap: usize) -> usize
    ensures { result ≡ ones (marked bytes.now) 0 cap }
{
    (0..cap).filter(|&c| is_marked(bytes, c)).count()
}

pub(crate) fn check_bits<F>(bytes: &[u8], cap: usize) -> Result<(), ImageFault<F>>
    ensures { result ≡ bits_check bytes.now cap }
{
    if 32 + cap / 8 <= bytes.len() && count_marked(bytes, cap) == count_at(bytes) {
        Ok(())
    } else {
        Err(ImageFault::Bits)
    }
}
