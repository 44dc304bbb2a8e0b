// Where records stand, and what is answered.
use cells::ring::capacity_of;
use cells::shape::Shape;
use kinds::record::Record;
use maps::{Answer, Command};
use numbers::papers::Papers;
use numbers::staff::StaffNumber;
use sheets::sheet::run_sheet;
use std::test::Fail;

fn enter(
    cells: &mut [Option<Record<u32, Papers>>],
    count: usize,
    command: Command<u32, Papers>,
) -> Result<(Answer<Papers>, usize), Fail> {
    let mut scratch = [None; 1024];
    let sheet = [command];
    let mut answers = [Answer::Absent];
    let left = run_sheet::<StaffNumber, Papers>(
        cells,
        &mut scratch,
        &sheet,
        &mut answers,
        Shape::new(0, count),
    );
    let after = left.map_err(|_| Fail::new("refused"))?;
    Ok((answers[0], after))
}

fn put_all(
    cells: &mut [Option<Record<u32, Papers>>],
    count: usize,
    keys: &[u32],
) -> Result<usize, Fail> {
    let mut held = count;
    for key in keys {
        let (_, after) = enter(cells, held, Command::Put(*key, Papers::new(1)))?;
        held = after;
    }
    Ok(held)
}

fn stands(cells: &[Option<Record<u32, Papers>>], place: usize, key: u32) -> bool {
    matches!(cells.get(place), Some(Some(found)) if found.key == key)
}

#[test]
fn two_keys_of_one_home(rt: HostRuntime) -> Result<(), Fail> {
    let mut cells = [None; 1024];
    let count = put_all(&mut cells, 0, &[9, 1])?;
    assert_eq!(rt; count, 2);
    assert!(rt; stands(&cells, 4, 1) && stands(&cells, 5, 9));
    Ok(())
}

#[test]
fn a_drop_shifts_back_past_one_that_stays(rt: HostRuntime) -> Result<(), Fail> {
    let mut cells = [None; 1024];
    let count = put_all(&mut cells, 0, &[9, 6, 1])?;
    assert!(rt; stands(&cells, 4, 1) && stands(&cells, 5, 6) && stands(&cells, 6, 9));
    let (_, after) = enter(&mut cells, count, Command::Drop(1))?;
    assert_eq!(rt; after, 2);
    assert!(rt; stands(&cells, 4, 9) && stands(&cells, 5, 6));
    Ok(())
}

#[test]
fn the_way_turns_past_the_last_cell(rt: HostRuntime) -> Result<(), Fail> {
    let mut cells = [None; 1024];
    let count = put_all(&mut cells, 0, &[8, 16])?;
    assert!(rt; stands(&cells, 7, 8) && stands(&cells, 0, 16));
    let _ = put_all(&mut cells, count, &[5])?;
    assert!(rt; stands(&cells, 0, 5) && stands(&cells, 7, 8) && stands(&cells, 1, 16));
    Ok(())
}

#[test]
fn the_seventh_key_grows_and_its_drop_shrinks(rt: HostRuntime) -> Result<(), Fail> {
    let mut cells = [None; 1024];
    let six = put_all(&mut cells, 0, &[3, 1, 6, 2, 5, 4])?;
    assert!(rt; stands(&cells, 4, 1) && stands(&cells, 1, 2) && stands(&cells, 6, 3));
    assert!(rt; stands(&cells, 3, 4) && stands(&cells, 0, 5) && stands(&cells, 5, 6));
    let seven = put_all(&mut cells, six, &[7])?;
    assert_eq!(rt; capacity_of(seven), 16);
    assert!(rt;
        stands(&cells, 9, 1)
            && stands(&cells, 3, 2)
            && stands(&cells, 13, 3)
            && stands(&cells, 7, 4)
    );
    assert!(rt; stands(&cells, 1, 5) && stands(&cells, 11, 6) && stands(&cells, 5, 7));
    let (_, after) = enter(&mut cells, seven, Command::Drop(7))?;
    assert_eq!(rt; after, 6);
    assert!(rt; stands(&cells, 4, 1) && stands(&cells, 1, 2) && stands(&cells, 6, 3));
    assert!(rt; stands(&cells, 3, 4) && stands(&cells, 0, 5) && stands(&cells, 5, 6));
    Ok(())
}

fn put_below(cells: &mut [Option<Record<u32, Papers>>], end: u32) -> Result<usize, Fail> {
    let mut count = 0;
    // The keys themselves are counted.
    for key in 0..end {
        let (_, after) = enter(cells, count, Command::Put(key, Papers::new(1)))?;
        count = after;
    }
    Ok(count)
}

#[test]
fn the_769th_key_is_refused(rt: HostRuntime) -> Result<(), Fail> {
    let mut cells = [None; 1024];
    let count = put_below(&mut cells, 768)?;
    assert_eq!(rt; count, 768);
    let (refused, still) = enter(&mut cells, count, Command::Put(768, Papers::new(1)))?;
    assert!(rt; still == 768 && matches!(refused, Answer::Full));
    let (joined, _) = enter(&mut cells, count, Command::Put(767, Papers::new(2)))?;
    let Answer::Joined(held) = joined else {
        return Err(Fail::new("not joined"));
    };
    assert_eq!(rt; held.bits(), 3);
    Ok(())
}
