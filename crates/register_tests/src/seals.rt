use kinds::record::Record;
use kinds::value::Value;
use maps::{Answer, Command};
use numbers::hours::Hours;
use numbers::papers::Papers;
use numbers::staff::StaffNumber;
use register::batch::Closed;
use register::batch::ends::abandon;
use register::batch::enters::enter;
use register::batch::opens::start;
use register::batch::seals::seal;
use store::plain::PlainStore;
use store::store::Store;

// Opens an empty batch of papers, then enters an empty sheet and seals under the kind V with other cells. The numbers of
// both refusals, nothing where no batch is opened.
fn under<S: Store, V: Value>(
    closed: Closed<S>,
    other: &mut [Option<Record<u32, V>>],
    scratch: &mut [Option<Record<u32, V>>],
    work: &mut [u8],
) -> (S, Option<[Option<u8>; 2]>) {
    let mut cells: [Option<Record<u32, Papers>>; 1024] = [None; 1024];
    let sheet: [Command<u32, V>; 0] = [];
    let mut answers: [Answer<V>; 0] = [];
    match start::<S, StaffNumber, Papers>(closed, 0, &mut cells) {
        Err((closed, _)) => (closed.into_store(), None),
        Ok((mut batch, token)) => {
            let res = enter::<S, StaffNumber, V>(&mut batch, other, scratch, &sheet, &mut answers);
            let entered = res.err().map(|fault| fault.number());
            match seal::<S, StaffNumber, V>(batch, token, other, work) {
                Ok(closed) => (closed.into_store(), Some([entered, None])),
                Err((batch, token, fault)) => {
                    let closed = abandon::<S, StaffNumber, Papers>(batch, token, &mut cells);
                    (closed.into_store(), Some([entered, Some(fault.number())]))
                }
            }
        }
    }
}

#[test]
fn another_kind_is_refused(rt: HostRuntime) {
    let mut bytes = [5; 64];
    let mut hours: [Option<Record<u32, Hours>>; 1024] = [None; 1024];
    let mut scratch: [Option<Record<u32, Hours>>; 1024] = [None; 1024];
    let mut work = [1; 64];
    let (_, refused) = under(
        Closed::new(PlainStore::new(&mut bytes, false)),
        &mut hours,
        &mut scratch,
        &mut work,
    );
    assert_eq!(rt; refused, Some([Some(9), Some(9)]));
    assert_eq!(rt; (bytes[0], work[0]), (5, 1));
}

#[test]
fn seal_refuses_few_work_bytes_and_other_cells(rt: HostRuntime) {
    let mut bytes = [5; 64];
    let mut cells: [Option<Record<u32, Papers>>; 1024] = [None; 1024];
    let mut scratch: [Option<Record<u32, Papers>>; 1024] = [None; 1024];
    let mut short = [1; 63];
    let (_, refused) = under(
        Closed::new(PlainStore::new(&mut bytes, false)),
        &mut cells,
        &mut scratch,
        &mut short,
    );
    assert_eq!(rt; refused, Some([None, Some(2)]));
    cells[7] = Some(Record {
        key: 1,
        value: Papers::new(3),
    });
    let mut work = [1; 64];
    let (_, refused) = under(
        Closed::new(PlainStore::new(&mut bytes, false)),
        &mut cells,
        &mut scratch,
        &mut work,
    );
    assert_eq!(rt; refused, Some([Some(10), Some(10)]));
    assert_eq!(rt; (bytes[0], work[0]), (5, 1));
}
