use kinds::record::Record;
use maps::{Answer, Command};
use numbers::hours::Hours;
use numbers::papers::Papers;
use numbers::staff::StaffNumber;
use register::batch::ends::abandon;
use register::batch::enters::{enter, list};
use register::batch::opens::{begin, start};
use register::batch::seals::seal;
use register::batch::{Closed, Open, Opening, Sealing};
use register::fault::RegisterFault;
use store::fault::BlockFault;
use store::plain::PlainStore;
use store::store::Store;

// What start or begin is refused with, by its number; a batch that was opened is abandoned.
fn opening_refusal<S: Store>(
    opening: Opening<S>,
    cells: &mut [Option<Record<u32, Papers>>],
) -> (Closed<S>, Option<u8>) {
    match opening {
        Ok((batch, token)) => (abandon::<S, StaffNumber, Papers>(batch, token, cells), None),
        Err((closed, fault)) => (closed, Some(fault.number())),
    }
}

// What seal is refused with; the batch is then abandoned. It lies in the other variant here, so one function for both is no plainer.
fn sealing_refusal<S: Store>(
    sealing: Sealing<S>,
    cells: &mut [Option<Record<u32, Papers>>],
) -> (Closed<S>, Option<u8>) {
    match sealing {
        Ok(closed) => (closed, None),
        Err((batch, token, fault)) => (
            abandon::<S, StaffNumber, Papers>(batch, token, cells),
            Some(fault.number()),
        ),
    }
}

// What enter or list is refused with.
fn refusal<T: Copy, F: BlockFault>(res: Result<T, RegisterFault<F>>) -> Option<u8> {
    res.err().map(|fault| fault.number())
}

// What start and begin are refused with: with few cells, with few work bytes, and on a store that holds no image. Before that last, the first
// work byte.
fn opening_refusals<S: Store>(closed: Closed<S>, work: &mut [u8; 64]) -> (S, [Option<u8>; 5], u8) {
    let mut few: [Option<Record<u32, Papers>>; 3] = [None; 3];
    let mut cells: [Option<Record<u32, Papers>>; 1024] = [None; 1024];
    let (closed, a) = opening_refusal(
        start::<S, StaffNumber, Papers>(closed, 0, &mut few),
        &mut few,
    );
    let (closed, b) = opening_refusal(
        begin::<S, StaffNumber, Papers>(closed, &mut few, work),
        &mut few,
    );
    let (closed, c) = opening_refusal(
        start::<S, StaffNumber, Papers>(closed, 0, &mut cells),
        &mut cells,
    );
    let (closed, d) = opening_refusal(
        begin::<S, StaffNumber, Papers>(closed, &mut cells, &mut work[..63]),
        &mut cells,
    );
    let kept = work[0];
    let (closed, e) = opening_refusal(
        begin::<S, StaffNumber, Papers>(closed, &mut cells, work),
        &mut cells,
    );
    (closed.into_store(), [a, b, c, d, e], kept)
}

#[test]
fn start_and_begin_refuse(rt: HostRuntime) {
    let mut none: [u8; 0] = [];
    let mut work = [1; 64];
    let (_, refused, kept) = opening_refusals(
        Closed::new(PlainStore::new(&mut none, false)),
        &mut work,
    );
    assert_eq!(rt; refused, [Some(1); 5]);
    assert_eq!(rt; kept, 1);
    assert_eq!(rt; work[0], 1);
    let mut bytes = [0; 64];
    let (_, refused, kept) = opening_refusals(
        Closed::new(PlainStore::new(&mut bytes, false)),
        &mut work,
    );
    assert_eq!(rt; refused, [Some(2), Some(2), None, Some(2), Some(4)]);
    assert_eq!(rt; kept, 1);
    assert_eq!(rt; work[0], 0);
}

// What a sheet with one put is refused with.
fn entering<S: Store>(
    batch: &mut Open<S>,
    cells: &mut [Option<Record<u32, Papers>>],
    scratch: &mut [Option<Record<u32, Papers>>],
    answers: &mut [Answer<Papers>],
) -> Option<u8> {
    refusal(enter::<S, StaffNumber, Papers>(
        batch,
        cells,
        scratch,
        &[Command::Put(1, Papers::new(3))],
        answers,
    ))
}

// What list is refused with: with no place in the output, under another kind, and with cells that are empty.
fn listing<S: Store>(batch: &Open<S>, cells: &[Option<Record<u32, Papers>>]) -> [Option<u8>; 3] {
    let hours: [Option<Record<u32, Hours>>; 1024] = [None; 1024];
    let empty: [Option<Record<u32, Papers>>; 1024] = [None; 1024];
    let mut output: [Option<Record<u32, Papers>>; 1] = [None; 1];
    [
        refusal(list::<S, StaffNumber, Papers>(batch, cells, &mut [])),
        refusal(list::<S, StaffNumber, Hours>(batch, &hours, &mut [])),
        refusal(list::<S, StaffNumber, Papers>(batch, &empty, &mut output)),
    ]
}

// What the calls on a batch are refused with.
#[derive(Clone, Copy, PartialEq, Eq, Debug)]
struct Refusals {
    // with all that it takes, with no answers, and with other cells
    entered: [Option<u8>; 3],
    listed: [Option<u8>; 3],
    sealed: Option<u8>,
}

// The calls on a batch, and the seal last; nothing where no batch is opened.
fn batch_refusals<S: Store>(
    closed: Closed<S>,
    cells: &mut [Option<Record<u32, Papers>>],
    scratch: &mut [Option<Record<u32, Papers>>],
) -> (S, Option<Refusals>) {
    let mut answers: [Answer<Papers>; 2] = [Answer::Full; 2];
    let mut work = [0; 64];
    match start::<S, StaffNumber, Papers>(closed, 0, cells) {
        Err((closed, _)) => (closed.into_store(), None),
        Ok((mut batch, token)) => {
            let entered = [
                entering(&mut batch, cells, scratch, &mut answers),
                entering(&mut batch, cells, scratch, &mut []),
                entering(&mut batch, scratch, cells, &mut answers),
            ];
            let listed = listing(&batch, cells);
            let (closed, sealed) = sealing_refusal(
                seal::<S, StaffNumber, Papers>(batch, token, cells, &mut work),
                cells,
            );
            let refusals = Refusals {
                entered,
                listed,
                sealed,
            };
            (closed.into_store(), Some(refusals))
        }
    }
}

#[test]
fn the_calls_on_a_batch_refuse(rt: HostRuntime) {
    let mut cells: [Option<Record<u32, Papers>>; 1024] = [None; 1024];
    let mut scratch: [Option<Record<u32, Papers>>; 1024] = [None; 1024];
    let expected = Refusals {
        entered: [None, Some(2), Some(10)],
        listed: [Some(2), Some(9), Some(10)],
        sealed: Some(11),
    };
    let mut bytes = [5; 32];
    let (_, refused) = batch_refusals(
        Closed::new(PlainStore::new(&mut bytes, false)),
        &mut cells,
        &mut scratch,
    );
    assert_eq!(rt; refused, Some(expected));
    assert_eq!(rt; bytes[0], 5);
    let mut bytes = [5; 64];
    let (_, refused) = batch_refusals(
        Closed::new(PlainStore::new(&mut bytes, true)),
        &mut cells,
        &mut scratch,
    );
    let expected = Refusals {
        sealed: Some(12),
        ..expected
    };
    assert_eq!(rt; refused, Some(expected));
    assert_eq!(rt; bytes[0], 5);
}
