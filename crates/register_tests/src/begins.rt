use kinds::record::Record;
use numbers::papers::Papers;
use numbers::staff::StaffNumber;
use register::batch::Closed;
use register::batch::ends::abandon;
use register::batch::opens::begin;
use store::checked::CheckedStore;
use store::plain::PlainStore;
use store::store::Store;

// The image of 1 with papers 3 and 9 with papers 4, with one byte changed. The tests of images have it too: a crate for
// these lines alone would be no plainer.
fn image_but(place: usize, byte: u8) -> [u8; 64] {
    let mut bytes = [0; 64];
    bytes[0] = 1;
    bytes[1] = 1;
    bytes[2] = 1;
    bytes[3] = 3;
    bytes[5] = 2;
    bytes[32] = 48;
    bytes[36] = 1;
    bytes[38] = 3;
    bytes[42] = 9;
    bytes[44] = 4;
    if place < 64 {
        bytes[place] = byte;
    }
    bytes
}

// The number and the place of begin's refusal, if it refuses.
fn refusal<S: Store>(closed: Closed<S>) -> (S, Option<(u8, usize)>) {
    let mut cells: [Option<Record<u32, Papers>>; 1024] = [None; 1024];
    let mut work = [1; 64];
    match begin::<S, StaffNumber, Papers>(closed, &mut cells, &mut work) {
        Ok((batch, token)) => {
            let closed = abandon::<S, StaffNumber, Papers>(batch, token, &mut cells);
            (closed.into_store(), None)
        }
        Err((closed, fault)) => (closed.into_store(), Some((fault.number(), fault.place()))),
    }
}

fn refusal_of(place: usize, byte: u8) -> Option<(u8, usize)> {
    let mut bytes = image_but(place, byte);
    refusal(Closed::new(PlainStore::new(&mut bytes, false))).1
}

#[test]
fn begin_refuses_what_is_no_image(rt: HostRuntime) {
    assert_eq!(rt; refusal_of(0, 1), None);
    assert_eq!(rt; refusal_of(3, 4), Some((4, 4)));
    assert_eq!(rt; refusal_of(31, 7), Some((4, 31)));
    assert_eq!(rt; refusal_of(32, 16), Some((5, 32)));
    assert_eq!(rt; refusal_of(36, 9), Some((7, 5)));
    assert_eq!(rt; refusal_of(63, 1), Some((8, 63)));
}

#[test]
fn begin_refuses_a_record_past_the_end(rt: HostRuntime) {
    let mut bytes = image_but(5, 6);
    bytes[32] = 63;
    let (_, refused) = refusal(Closed::new(PlainStore::new(&mut bytes, false)));
    assert_eq!(rt; refused, Some((6, 63)));
}

#[test]
fn begin_refuses_an_unreadable_block(rt: HostRuntime) {
    let mut bytes = [0; 68];
    bytes[40] = 1;
    let (_, refused) = refusal(Closed::new(CheckedStore::new(&mut bytes, false)));
    assert_eq!(rt; refused, Some((3, 1)));
}
