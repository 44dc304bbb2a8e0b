// Reads lines from the standard input, and answers each with a line. Commands are entered in sheets, and `=` seals.
#![tactic(auto)]

ghost use Rattle.lines.specs.Lines.{unread};
ghost use Rattle.std.specs.Prelude.{◌<◌, length, IfOk, IsTrue};

mod desk;

use desk::{Batch, Desk, command_of, refused, reply_of};
use lines::input::{Lines, parse};
use lines::output::Reply;
use maps::{Answer, Command};
use numbers::papers::Papers;
use register::batch::Closed;
use std::io::Read;
use store::fault::BlockFault;
use store::plain::PlainStore;
use store::store::Store;

// What lies behind this many bytes is not read.
const INPUT_LIMIT: u64 = 65536;

// Eight blocks.
const STORE_BYTES: usize = 256;

// A longer run of commands is entered in several sheets.
const SHEET_LIMIT: usize = 64;

fn read_input(rt: &HostRuntime) -> anyhow::Result<Vec<u8>> {
    let mut input = Vec::new(rt.alloc());
    rt.stdin().take(INPUT_LIMIT).read_to_end(&mut input)?;
    Ok(input)
}

fn print_reply(rt: &HostRuntime, reply: Reply) -> anyhow::Result<()> {
    println!(rt; "{reply}")?;
    Ok(())
}

// Enters the gathered commands, prints a line for each, and empties the sheet.
fn answer_sheet<S: Store>(
    rt: &HostRuntime,
    desk: &mut Desk,
    batch: &mut Batch<S>,
    sheet: &mut Vec<Command<u32, Papers>>,
) -> anyhow::Result<()> {
    let mut answers = vec![in rt.alloc(); Answer::Absent; sheet.len()]?;
    let entered = desk.enter(batch, sheet, &mut answers);
    for answer in &answers {
        let reply = match &entered {
            Ok(()) => reply_of(*answer),
            Err(fault) => refused(fault),
        };
        print_reply(rt, reply)?;
    }
    sheet.clear();
    Ok(())
}

// Answers all lines before the next seal, and tells whether one came. A bool, since nothing comes with a seal, and what is
// left of the lines is the caller's.
fn answer_batch<S: Store>(
    rt: &HostRuntime,
    desk: &mut Desk,
    batch: &mut Batch<S>,
    lines: &mut Lines<'_>,
) -> anyhow::Result<bool>
    ensures { IfOk result (λ sealed. IsTrue sealed → length (unread lines.new) < length (unread lines.old)) }
{
    let mut sheet = Vec::new(rt.alloc());
    // A `for` over `by_ref` tells less: that lines are used up stays open at its `return`.
    while let Some(line) = lines.next() {
        let Ok(line) = parse(line) else {
            answer_sheet(rt, desk, batch, &mut sheet)?;
            print_reply(rt, Reply::Bad)?;
            continue;
        };
        let Some(command) = command_of(line) else {
            answer_sheet(rt, desk, batch, &mut sheet)?;
            return Ok(true);
        };
        if sheet.len() == SHEET_LIMIT {
            answer_sheet(rt, desk, batch, &mut sheet)?;
        }
        sheet.push(command)?;
    }
    answer_sheet(rt, desk, batch, &mut sheet)?;
    Ok(false)
}

// Answers all lines, from seal to seal. Whatever ends this, the last batch is abandoned first.
fn answer_all<S: Store + Drop>(
    rt: &HostRuntime,
    desk: &mut Desk,
    mut batch: Batch<S>,
    input: &[u8],
) -> (Closed<S>, anyhow::Result<()>) {
    let mut lines = Lines::new(input);
    loop {
        match answer_batch(rt, desk, &mut batch, &mut lines) {
            Ok(true) => {}
            Ok(false) => return (desk.abandon(batch), Ok(())),
            Err(error) => return (desk.abandon(batch), Err(error)),
        }
        let (left, reply) = desk.seal(batch);
        let printed = print_reply(rt, reply);
        batch = match left {
            Ok(next) => next,
            Err(closed) => return (closed, printed),
        };
        if let Err(error) = printed {
            return (desk.abandon(batch), Err(error));
        }
    }
}

fn serve<S: Store + Drop>(
    rt: &HostRuntime,
    closed: Closed<S>,
    input: &[u8],
    desk: &mut Desk,
) -> anyhow::Result<()> {
    let (closed, result) = match desk.start(closed) {
        Ok(batch) => answer_all(rt, desk, batch, input),
        Err((closed, fault)) => (closed, print_reply(rt, refused(&fault))),
    };
    let _ = closed.into_store();
    result
}

fn main(rt: HostRuntime) -> anyhow::Result<()> {
    let input = read_input(&rt)?;
    let mut bytes = vec![in rt.alloc(); 0; STORE_BYTES]?;
    let mut desk = Desk::new(rt.alloc(), STORE_BYTES)?;
    let store = PlainStore::new(&mut bytes, false);
    serve(&rt, Closed::new(store), &input, &mut desk)
}
