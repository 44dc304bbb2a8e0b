ghost use Rattle.std.specs.Prelude.{◌≡◌};
ghost use Rattle.store.specs.Answers.{range_answer, write_answer};
ghost use Rattle.store.specs.Told.{tells};

use crate::fault::{BlockFault, StoreFault};

// What every store answers first to a read of block `i`, from its count.
pub fn readable(i: usize, count: usize) -> Result<(), StoreFault>
    ensures { tells ⟦<StoreFault as BlockFault>⟧ result ≡ range_answer count i }
{
    if i >= count {
        return Err(StoreFault::Range(i));
    }
    Ok(())
}

// What every store answers to a write of block `i`, from its count and whether it is protected. A store calls it with
// what it has at hand: a struct of the three would be taken apart at once.
pub fn writable(i: usize, count: usize, protected: bool) -> Result<(), StoreFault>
    ensures { tells ⟦<StoreFault as BlockFault>⟧ result ≡ write_answer count protected i }
{
    readable(i, count)?;
    if protected {
        return Err(StoreFault::Protected(i));
    }
    Ok(())
}
