use store::store::Block;

// A written block that is held back, and where it goes.
#[derive(Clone, Copy, Debug, Default, PartialEq, Eq)]
pub struct Slot {
    pub at: usize,
    pub block: Block,
}
