use crate::copy_image;
use image::fault::ImageFault;
use image_reader::reader::read_image;
use image_store::load::read_store;
use kinds::record::Record;
use numbers::papers::Papers;
use numbers::staff::StaffNumber;
use store::checked::CheckedStore;
use store::fault::{BlockFault, StoreFault};
use store::plain::PlainStore;
use store::store::Store;

type Cells = [Option<Record<u32, Papers>>; 1024];

// 1 with papers 3 and 9 with papers 4, under seed 0, in two blocks.
fn example() -> [u8; 64] {
    let mut bytes = [0; 64];
    bytes[0] = 1;
    bytes[1] = 1;
    bytes[2] = 1;
    bytes[3] = 3;
    bytes[5] = 2;
    bytes[32] = 0x30;
    bytes[36] = 1;
    bytes[38] = 3;
    bytes[42] = 9;
    bytes[44] = 4;
    bytes
}

// Number and place of the refusal, if there is one. Refusals are told by their numbers, as callers outside tell them.
fn refusal(bytes: &[u8]) -> Option<(u8, usize)> {
    let mut cells: Cells = [None; 1024];
    read_image::<StaffNumber, Papers, StoreFault>(bytes, &mut cells)
        .err()
        .map(|fault| (fault.number(), fault.place()))
}

// The example with byte `i` changed.
fn spoilt(i: usize, byte: u8) -> Option<(u8, usize)> {
    let mut bytes = example();
    if let Some(spoilt) = bytes.get_mut(i) {
        *spoilt = byte;
    }
    refusal(&bytes)
}

// The first `n` bytes of the example.
fn shortened(n: usize) -> Option<(u8, usize)> {
    let bytes = example();
    bytes.get(..n).and_then(refusal)
}

// A cell in plain numbers.
fn plain(cell: Option<Record<u32, Papers>>) -> Option<(u32, u16)> {
    cell.map(|found| (found.key, found.value.bits()))
}

#[test]
fn the_example_is_read(rt: HostRuntime) {
    let mut cells: Cells = [None; 1024];
    let answer = read_image::<StaffNumber, Papers, StoreFault>(&example(), &mut cells);
    assert_eq!(rt; answer, Ok((0, 2)));
    assert_eq!(rt; plain(cells[4]), Some((1, 3)));
    assert_eq!(rt; plain(cells[5]), Some((9, 4)));
    assert_eq!(rt; plain(cells[6]), None);
}

#[test]
fn the_example_is_written(rt: HostRuntime) {
    let bytes = example();
    let mut cells: Cells = [None; 1024];
    let mut out = [7; 64];
    let answer = copy_image::<StaffNumber, Papers, StoreFault>(&bytes, &mut cells, &mut out);
    assert_eq!(rt; answer, Ok(2));
    assert_eq!(rt; out, bytes);
}

#[test]
fn header_faults(rt: HostRuntime) {
    assert_eq!(rt; spoilt(0, 2), Some((4, 0)));
    assert_eq!(rt; spoilt(1, 2), Some((4, 1)));
    assert_eq!(rt; spoilt(2, 2), Some((4, 2)));
    assert_eq!(rt; spoilt(3, 2), Some((4, 3)));
    assert_eq!(rt; spoilt(3, 11), Some((4, 3)));
    assert_eq!(rt; spoilt(3, 4), Some((4, 4)));
    assert_eq!(rt; spoilt(4, 4), Some((4, 4)));
    assert_eq!(rt; spoilt(7, 1), Some((4, 7)));
    assert_eq!(rt; spoilt(12, 1), Some((4, 12)));
    assert_eq!(rt; spoilt(31, 7), Some((4, 31)));
    assert_eq!(rt; shortened(0), Some((4, 0)));
}

#[test]
fn bits_and_record_faults(rt: HostRuntime) {
    assert_eq!(rt; spoilt(32, 0x10), Some((5, 32)));
    assert_eq!(rt; spoilt(5, 3), Some((5, 32)));
    assert_eq!(rt; shortened(32), Some((5, 32)));
    assert_eq!(rt; shortened(33), Some((6, 33)));
    assert_eq!(rt; shortened(38), Some((6, 33)));
    assert_eq!(rt; shortened(44), Some((6, 39)));
    assert_eq!(rt; shortened(45), None);
}

#[test]
fn layout_and_tail_faults(rt: HostRuntime) {
    assert_eq!(rt; spoilt(36, 9), Some((7, 5)));
    assert_eq!(rt; spoilt(32, 0x11), Some((7, 0)));
    assert_eq!(rt; spoilt(11, 1), None);
    assert_eq!(rt; spoilt(8, 128), Some((7, 4)));
    assert_eq!(rt; spoilt(45, 1), Some((8, 45)));
    assert_eq!(rt; spoilt(63, 1), Some((8, 63)));
}

// What comes of reading a checked store of two blocks, one byte of which is changed, where it has so many.
#[derive(Drop)]
struct CheckedRead {
    // Number and place of the refusal.
    refusal: Option<(u8, usize)>,
    work: [u8; 70],
}

fn checked_read(i: usize) -> Option<CheckedRead> {
    let mut bytes = [0; 68];
    if let Some(byte) = bytes.get_mut(i) {
        *byte = 1;
    }
    let store = CheckedStore::new(&mut bytes, false);
    let mut cells: Cells = [None; 1024];
    let mut work = [9; 70];
    if 32 * store.count() > work.len() {
        return None;
    }
    let refusal = read_store::<CheckedStore<'_>, StaffNumber, Papers>(&store, &mut work, &mut cells)
        .err()
        .map(|fault| (fault.number(), fault.place()));
    Some(CheckedRead { refusal, work })
}

fn checked_refusal(i: usize) -> Option<(u8, usize)> {
    checked_read(i)?.refusal
}

// Whether the work bytes end zero.
fn ends_zero(i: usize) -> bool {
    checked_read(i).is_some_and(|read| read.work == [0; 70])
}

#[test]
fn unreadable_blocks(rt: HostRuntime) {
    assert_eq!(rt; checked_refusal(32), Some((3, 0)));
    assert_eq!(rt; checked_refusal(66), Some((3, 1)));
    assert_eq!(rt; checked_refusal(34), Some((3, 1)));
    assert!(rt; ends_zero(66));
    assert!(rt; ends_zero(68));
    assert_eq!(rt; checked_refusal(68), Some((4, 0)));
}
