// The bit map.
ghost use Rattle.std.specs.Prelude.{◌≡◌, ◌*◌, length};
ghost use Rattle.image.specs.Bits.{packed, bit_map};
ghost use Rattle.image.specs.Image.{held};

// The byte for eight cells, the lowest bit for the first. They are a slice: `as_chunks` asks that the size of eight fits
// the memory, which is not known of any `T`.
fn bits_of<T: Copy>(eight: &[Option<T>]) -> u8
    requires { length eight.now ≡ 8 }
    ensures { result ≡ packed (held eight.now) 0 8 }
{
    let mut bits = 0;
    for (k, cell) in eight.iter().enumerate() {
        if cell.is_some() {
            bits |= 1 << k;
        }
    }
    bits
}

pub(crate) fn put_bits<T: Copy>(cells: &[Option<T>], out: &mut [u8])
    requires { length cells.now ≡ 8 * length out.old }
    ensures { out.new ≡ bit_map (held cells.now) (length out.old) }
{
    // The cells by index: of what a loop over `iter_mut().zip(..)` writes a proof learns nothing.
    for (j, byte) in out.iter_mut().enumerate() {
        *byte = bits_of(&cells[8 * j..8 * j + 8]);
    }
}
