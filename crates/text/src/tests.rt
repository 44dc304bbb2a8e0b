use crate::fnv::fnv1a;
use crate::key::TextKey;
use crate::row::TextRow;
use kinds::key::Key;
use std::cmp::Ordering;
use std::test::Fail;

// Number and place of the refusal, if there is one, as callers outside tell it.
fn refusal(bytes: &[u8]) -> Option<(u8, usize)> {
    TextKey::new(bytes)
        .err()
        .map(|fault| (fault.number(), fault.place()))
}

// The length of the code that stands at the front, if one does.
fn code_len(bytes: &[u8]) -> Option<usize> {
    TextKey::read(bytes).ok().map(|(_, n)| n)
}

// The published vectors.
#[test]
fn fnv_vectors(rt: HostRuntime) {
    assert_eq!(rt; fnv1a(0, b"a"), 0xe40c292c);
    assert_eq!(rt; fnv1a(0, b"b"), 0xe70c2de5);
    assert_eq!(rt; fnv1a(0, b"foobar"), 0xbf9cf968);
}

// Over no bytes it is where it starts.
#[test]
fn fnv_of_no_bytes(rt: HostRuntime) {
    assert_eq!(rt; fnv1a(0, b""), 0x811c9dc5);
}

#[test]
fn case_makes_no_other_key(rt: HostRuntime) -> Result<(), Fail> {
    let small = TextKey::new(b"ab")?;
    let large = TextKey::new(b"AB")?;
    assert!(rt; small.compare(&large) == Ordering::Equal);
    assert_eq!(rt; small.hash(5), large.hash(5));
    assert_eq!(rt; small.hash(0), fnv1a(0, b"AB"));
    Ok(())
}

#[test]
fn refusals_and_places(rt: HostRuntime) {
    assert_eq!(rt; refusal(b"New York, 24 bytes long."), None);
    assert_eq!(rt; refusal(b""), Some((14, 0)));
    assert_eq!(rt; refusal(b"of 25 bytes, one too many"), Some((14, 0)));
    assert_eq!(rt; refusal(b"\ntwo"), Some((14, 1)));
    assert_eq!(rt; refusal(b"ab~\x7f\x1f"), Some((14, 4)));
}

#[test]
fn codes_are_read(rt: HostRuntime) {
    assert_eq!(rt; code_len(b"\x02AB"), Some(3));
    assert_eq!(rt; code_len(b"\x02ABC"), Some(3));
    assert_eq!(rt; code_len(b"\x02A"), None);
    assert_eq!(rt; code_len(b"\x02Ab"), None);
    assert_eq!(rt; code_len(b"\x00AB"), None);
    assert_eq!(rt; code_len(b"\x19ABCDEFGHIJKLMNOPQRSTUVWXY"), None);
    assert_eq!(rt; code_len(b""), None);
}

#[test]
fn beginnings_come_first(rt: HostRuntime) -> Result<(), Fail> {
    let a = TextKey::new(b"A")?;
    let ab = TextKey::new(b"AB")?;
    let b = TextKey::new(b"B")?;
    assert!(rt; a.compare(&ab) == Ordering::Less);
    assert!(rt; ab.compare(&b) == Ordering::Less);
    assert!(rt; b.compare(&ab) == Ordering::Greater);
    Ok(())
}

#[test]
fn rows_are_checked(rt: HostRuntime) -> Result<(), Fail> {
    let row = TextKey::new(b"ab")?.to_row();
    assert_eq!(rt; row.head, 0x4142000000000000);
    assert!(rt; TextKey::from_row(row).is_some());
    assert!(rt; TextKey::from_row(TextRow { tail: 1, ..row }).is_none());
    assert!(rt;
        TextKey::from_row(TextRow {
            head: 0x4162000000000000,
            ..row
        })
        .is_none()
    );
    assert!(rt; TextKey::from_row(TextRow { len: 0, ..row }).is_none());
    Ok(())
}
