use std::test::Fail;
use store::checked::{CheckedStore, fletcher};
use store::fault::{BlockFault, StoreFault};
use store::store::{Block, Store};
use writeback::stack::stack;

fn one() -> Block {
    let mut block = [0; 32];
    block[0] = 1;
    block
}

#[test]
fn sums_of_one(rt: HostRuntime) {
    assert_eq!(rt; fletcher(&one()), [0x01, 0x20]);
}

#[test]
fn numbers_and_blocks(rt: HostRuntime) {
    assert_eq!(rt; StoreFault::Range(5).number(), 13);
    assert_eq!(rt; StoreFault::Unreadable(6).number(), 3);
    assert_eq!(rt; StoreFault::Protected(7).number(), 12);
    assert_eq!(rt; StoreFault::Protected(7).block(), 7);
}

// 70 bytes are two blocks and two bytes; nines are not the sums of nines.
#[test]
fn refusals(rt: HostRuntime) {
    let mut bytes = [9; 70];
    let mut store = CheckedStore::new(&mut bytes, true);
    assert_eq!(rt; store.read(2), Err(StoreFault::Range(2)));
    assert_eq!(rt; store.read(1), Err(StoreFault::Unreadable(1)));
    assert_eq!(rt; store.write(1, &one()), Err(StoreFault::Protected(1)));
}

#[test]
fn stack_reads_on(rt: HostRuntime) -> Result<(), Fail> {
    let mut plain = [0; 320];
    let mut checked = [0; 272];
    {
        let mut store = stack(&mut plain, 2, 9, &mut checked, false);
        assert_eq!(rt; store.count(), 8);
        store.write(3, &[5; 32])?;
        assert_eq!(rt; store.read(3), Ok([5; 32]));
        store.flush();
    }
    assert_eq!(rt; plain[5 * 32], 5);
    assert_eq!(rt; checked[3 * 34], 5);
    checked[3 * 34] = 6;
    {
        let mut store = stack(&mut plain, 2, 9, &mut checked, false);
        assert_eq!(rt; store.read(3), Ok([5; 32]));
        store.write(3, &[8; 32])?;
        store.flush();
    }
    assert_eq!(rt; checked[3 * 34], 8);
    Ok(())
}
