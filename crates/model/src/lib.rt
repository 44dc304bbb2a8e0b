//! The plain machine, what one call of a register leaves, and lists of calls: definitions in specs/, theorems in proofs/,
//! and no more code than names them.
#![tactic(auto)]

ghost use Rattle.model.specs.Blocks.{BlocksWritten, Cuts};
ghost use Rattle.model.specs.Claims.{AllListsOfCalls, LentCells};

/// The number of cells that are lent to a register. Its contract names the theorems on lists of calls,
/// for every lawful kind of key `K`, held as rows `R`, every lawful kind of value `V`, and every lawful image.
pub fn lent_cells<K, R, V>() -> usize
    ensures cells { LentCells K R V result }
    ensures lists { AllListsOfCalls K R V }
{
    1024
}

/// The number of bytes of a block. Its contract names the theorem by which an image in bytes, with faults of any type `E`,
/// is an image in the blocks of a store.
pub fn block_bytes<K, R, V, E>() -> usize
    ensures blocks { Cuts result }
    ensures written { BlocksWritten K R V E }
{
    32
}
