use crate::copy_image;
use kinds::key::Key;
use kinds::record::Record;
use numbers::hours::Hours;
use store::fault::StoreFault;
use text::key::TextKey;
use text::row::TextRow;

// Text number `i` of 768, all of 24 bytes, in ascending order.
fn text_of(i: u16) -> [u8; 24] {
    let mut text = [65; 24];
    text[21] = 48 + (i / 100 % 10) as u8;
    text[22] = 48 + (i / 10 % 10) as u8;
    text[23] = 48 + (i % 10) as u8;
    text
}

// The home of text number `i` among 1024 cells, under seed 5.
// Worked out again, apart from the code under test.
fn home(i: u16) -> usize {
    TextKey::new(&text_of(i)).map_or(
        0,
        |key| (u64::from(key.hash(5)) * 1024 / 4294967296) as usize,
    )
}

// Which text each cell holds: each text in the first free cell from its home on, where cell 0 follows the last.
fn owners() -> [Option<u16>; 1024] {
    let mut owner = [None; 1024];
    // A text is known by its number.
    for i in 0u16..768 {
        let (before, after) = owner.split_at_mut(home(i) % 1024);
        if let Some(free) = after.iter_mut().chain(before).find(|cell| cell.is_none()) {
            *free = Some(i);
        }
    }
    owner
}

// The code of text number `i` with `i` quarter hours in week 9.
fn code_of(i: u16) -> [u8; 29] {
    let mut code = [0; 29];
    code[0] = 24;
    code[1..25].copy_from_slice(&text_of(i));
    code[26] = 9;
    code[27..].copy_from_slice(&i.to_be_bytes());
    code
}

// The image of all 768 texts, text number `i` with `i` quarter hours in week 9, in 704 blocks.
fn image() -> [u8; 22528] {
    let mut bytes = [0; 22528];
    bytes[..6].copy_from_slice(&[1, 2, 2, 10, 3, 0]);
    bytes[11] = 5;
    let owners = owners();
    for (c, owner) in owners.iter().enumerate() {
        if owner.is_some() {
            bytes[32 + c / 8] |= 1 << (c % 8);
        }
    }
    let (codes, _) = bytes[160..].as_chunks_mut::<29>();
    for (code, i) in codes.iter_mut().zip(owners.iter().flatten()) {
        *code = code_of(*i);
    }
    bytes
}

#[test]
fn the_largest_image_is_read_and_written(rt: HostRuntime) {
    let bytes = image();
    let mut cells: [Option<Record<TextRow, Hours>>; 1024] = [None; 1024];
    let mut out = [0; 22528];
    let answer = copy_image::<TextKey, Hours, StoreFault>(&bytes, &mut cells, &mut out);
    assert_eq!(rt; answer, Ok(768));
    assert!(rt; out == bytes);
}
