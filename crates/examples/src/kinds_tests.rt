// Kinds: homes, codes, joins.
use kinds::key::Key;
use kinds::record::Record;
use kinds::value::Value;
use numbers::hours::Hours;
use numbers::papers::Papers;
use numbers::staff::StaffNumber;
use std::cmp::Ordering;
use std::test::Fail;

// Worked out again, apart from the code under test.
fn home(number: u32, seed: u32) -> u64 {
    u64::from(StaffNumber::new(number).hash(seed)) * 8 / 0x1_0000_0000
}

#[test]
fn homes_of_eight_cells(rt: HostRuntime) {
    assert_eq!(rt; home(1, 0), 4);
    assert_eq!(rt; home(5, 0), 0);
    assert_eq!(rt; home(6, 0), 5);
    assert_eq!(rt; home(8, 0), 7);
    assert_eq!(rt; home(9, 0), 4);
    assert_eq!(rt; home(16, 0), 7);
    // The seed is added in: 2^31 moves every home by half the cells.
    assert_eq!(rt; home(1, 0x8000_0000), 0);
}

#[test]
fn staff_numbers_go_up(rt: HostRuntime) {
    let small = StaffNumber::new(9);
    let large = StaffNumber::new(4294967295);
    assert_eq!(rt; small.compare(&large), Ordering::Less);
    assert_eq!(rt; large.compare(&small), Ordering::Greater);
    assert_eq!(rt; small.compare(&StaffNumber::new(9)), Ordering::Equal);
}

#[test]
fn joins(rt: HostRuntime) {
    assert_eq!(rt; Papers::new(5).join(Papers::new(6)).bits(), 7);
    let kept = Hours::new(5, 8).join(Hours::new(4, 90));
    assert_eq!(rt; kept.week(), 5);
    assert_eq!(rt; kept.quarters(), 8);
    let more = Hours::new(5, 8).join(Hours::new(5, 9));
    assert_eq!(rt; more.week(), 5);
    assert_eq!(rt; more.quarters(), 9);
}

#[test]
fn a_record_is_written_and_read_back(rt: HostRuntime) -> Result<(), Fail> {
    let record = Record {
        key: StaffNumber::new(0x0102_0304),
        value: Papers::new(0x0506),
    };
    let mut bytes = [0u8; 9];
    assert!(rt; record.write(&mut bytes, 4).is_err());
    assert_eq!(rt; bytes, [0u8; 9]);
    let end = record
        .write(&mut bytes, 2)
        .map_err(|_| Fail::new("the record fits"))?;
    assert_eq!(rt; end, 8);
    assert_eq!(rt; bytes, [0, 0, 1, 2, 3, 4, 5, 6, 0]);
    assert!(rt; Record::<StaffNumber, Papers>::read(&bytes[..5]).is_err());
    let read = Record::<StaffNumber, Papers>::read(&bytes[2..]);
    let (back, len) = read.map_err(|_| Fail::new("a record stands there"))?;
    assert_eq!(rt; back.key.number(), 0x0102_0304);
    assert_eq!(rt; back.value.bits(), 0x0506);
    assert_eq!(rt; len, 6);
    Ok(())
}

#[test]
fn hours_are_read_week_first(rt: HostRuntime) -> Result<(), Fail> {
    let (hours, len) = Hours::read(&[1, 2, 3, 4, 5]).map_err(|_| Fail::new("hours stand there"))?;
    assert_eq!(rt; hours.week(), 0x0102);
    assert_eq!(rt; hours.quarters(), 0x0304);
    assert_eq!(rt; len, 4);
    Ok(())
}
