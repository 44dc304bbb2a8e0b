use kinds::record::Record;
use maps::{Answer, Command};
use numbers::papers::Papers;
use numbers::staff::StaffNumber;
use register::batch::Closed;
use register::batch::rounds::keep_sheet;
use store::plain::PlainStore;
use store::store::Store;

fn put(key: u32, bits: u16) -> Command<u32, Papers> {
    Command::Put(key, Papers::new(bits))
}

// Seals the sheet under seed 0, in a store of at most 8 blocks.
fn seal_sheet<S: Store>(closed: Closed<S>, sheet: &[Command<u32, Papers>]) -> S {
    let mut cells: [Option<Record<u32, Papers>>; 1024] = [None; 1024];
    let mut scratch: [Option<Record<u32, Papers>>; 1024] = [None; 1024];
    let mut answers: [Answer<Papers>; 8] = [Answer::Full; 8];
    let mut work = [7; 256];
    keep_sheet::<S, StaffNumber, Papers>(
        closed,
        0,
        &mut cells,
        &mut scratch,
        sheet,
        &mut answers,
        &mut work,
    )
    .into_store()
}

#[test]
fn other_histories_with_the_same_end_keep_the_same_bytes(rt: HostRuntime) {
    let mut first = [0; 256];
    let mut second = [255; 256];
    let _ = seal_sheet(
        Closed::new(PlainStore::new(&mut first, false)),
        &[put(1, 3), put(9, 4)],
    );
    let _ = seal_sheet(
        Closed::new(PlainStore::new(&mut second, false)),
        &[
            put(9, 4),
            put(7, 8),
            put(1, 1),
            put(1, 2),
            Command::Drop(7),
            put(9, 4),
        ],
    );
    assert_eq!(rt; first, second);
    assert_eq!(rt; first[0], 1);
    assert_eq!(rt; first[3], 3);
    assert_eq!(rt; first[5], 2);
    assert_eq!(rt; first[32], 48);
    assert_eq!(rt; first[36], 1);
    assert_eq!(rt; first[38], 3);
    assert_eq!(rt; first[42], 9);
    assert_eq!(rt; first[44], 4);
    assert_eq!(rt; first[45], 0);
}
