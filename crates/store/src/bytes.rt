ghost use Rattle.std.specs.Prelude.{◌≡◌, ◌+◌, ◌≤◌, length};
ghost use Rattle.store.specs.Lent.{block_at, overwritten};

use crate::store::Block;

// The block that lies in bytes from a start on. Public for the crates above: each caller shows that the bytes are there.
pub fn block_at(bytes: &[u8], start: usize) -> Block
    requires { start + 32 ≤ length bytes.now }
    ensures { result ≡ block_at bytes.now start }
{
    let mut block = [0; 32];
    block.copy_from_slice(&bytes[start..start + 32]);
    block
}

// Writes over bytes from a start on, which each caller shows to be there, as for `block_at`.
pub fn overwrite(bytes: &mut [u8], start: usize, new: &[u8])
    requires { start + length new.now ≤ length bytes.old }
    ensures { bytes.new ≡ overwritten bytes.old start new.now }
{
    let end = start + new.len();
    bytes[start..end].copy_from_slice(new);
}
