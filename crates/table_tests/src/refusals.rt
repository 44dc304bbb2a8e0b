// The refusals of a sheet, in their order.
use cells::shape::Shape;
use kinds::record::Record;
use maps::{Answer, Command};
use numbers::papers::Papers;
use numbers::staff::StaffNumber;
use sheets::sheet::{SheetFault, run_sheet};

fn run(
    cells: &mut [Option<Record<u32, Papers>>],
    spare: &mut [Option<Record<u32, Papers>>],
    sheet: &[Command<u32, Papers>],
    answers: &mut [Answer<Papers>],
    count: usize,
    capacity: usize,
) -> Result<usize, SheetFault> {
    let shape = Shape {
        seed: 0,
        count,
        capacity,
    };
    run_sheet::<StaffNumber, Papers>(cells, spare, sheet, answers, shape)
}

// A sheet on parts of these lengths, of empty cells.
fn lend(cells: usize, spare: usize, commands: usize, answers: usize) -> Result<usize, SheetFault> {
    let mut all_cells = [None; 1025];
    let mut all_spare = [None; 1025];
    let all_commands = [Command::Get(1); 65];
    let mut all_answers = [Answer::Absent; 65];
    if cells > 1025 || spare > 1025 || commands > 65 || answers > 65 {
        return Err(SheetFault::Lent);
    }
    run(
        &mut all_cells[..cells],
        &mut all_spare[..spare],
        &all_commands[..commands],
        &mut all_answers[..answers],
        0,
        8,
    )
}

#[test]
fn lengths(rt: HostRuntime) {
    assert_eq!(rt; lend(1024, 1024, 64, 64), Ok(0));
    assert_eq!(rt; lend(1023, 1024, 1, 1), Err(SheetFault::Lent));
    assert_eq!(rt; lend(1025, 1024, 1, 1), Err(SheetFault::Lent));
    assert_eq!(rt; lend(1024, 1023, 1, 1), Err(SheetFault::Lent));
    assert_eq!(rt; lend(1024, 1024, 65, 65), Err(SheetFault::Lent));
    assert_eq!(rt; lend(1024, 1024, 64, 63), Err(SheetFault::Lent));
}

#[test]
fn cells_that_are_no_layout(rt: HostRuntime) {
    let mut cells = [None; 1024];
    let mut spare = [None; 1024];
    let sheet = [Command::Get(1)];
    let mut answers = [Answer::Absent];
    assert_eq!(rt;
        run(&mut cells, &mut spare, &sheet, &mut answers, 1, 8),
        Err(SheetFault::Cells)
    );
    assert_eq!(rt;
        run(&mut cells, &mut spare, &sheet, &mut answers, 0, 16),
        Err(SheetFault::Cells)
    );
    cells[3] = Some(Record {
        key: 1,
        value: Papers::new(1),
    });
    assert_eq!(rt;
        run(&mut cells, &mut spare, &sheet, &mut answers, 1, 8),
        Err(SheetFault::Cells)
    );
    cells[3] = None;
    cells[4] = Some(Record {
        key: 1,
        value: Papers::new(1),
    });
    assert_eq!(rt;
        run(&mut cells, &mut spare, &sheet, &mut answers, 1, 8),
        Ok(1)
    );
    cells[9] = Some(Record {
        key: 1,
        value: Papers::new(1),
    });
    assert_eq!(rt;
        run(&mut cells, &mut spare, &sheet, &mut answers, 1, 8),
        Err(SheetFault::Cells)
    );
}
