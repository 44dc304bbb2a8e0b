// What the program lends to the register's calls, and what it prints for their answers.
ghost use Rattle.contents.specs.Faults.{told};
ghost use Rattle.handover.specs.Replies.{line_of, reply_of};
ghost use Rattle.lines.specs.declared.output.Reply.TheVariants.{Refused};
ghost use Rattle.std.specs.Prelude.{◌≡◌};

use kinds::record::Record;
use lines::input::Line;
use lines::output::Reply;
use maps::{Answer, Command};
use numbers::papers::Papers;
use numbers::staff::StaffNumber;
use register::batch::ends::abandon;
use register::batch::enters::{enter, list};
use register::batch::opens::{begin, start};
use register::batch::seals::seal;
use register::batch::{Closed, Open, Token};
use register::fault::RegisterFault;
use std::alloc::{AllocError, Global};
use store::fault::BlockFault;
use store::store::Store;

const CELLS: usize = 1024;

const SEED: u32 = 0;

// The command that a line asks for; a seal is none. No `From`, since both types are of other crates; `reply_of` likewise.
pub fn command_of(line: Line) -> Option<Command<u32, Papers>>
    ensures { line_of result ≡ line }
{
    match line {
        Line::Put(key, bits) => Some(Command::Put(key, Papers::new(bits))),
        Line::Drop(key) => Some(Command::Drop(key)),
        Line::Get(key) => Some(Command::Get(key)),
        Line::Seal => None,
    }
}

pub fn reply_of(answer: Answer<Papers>) -> Reply
    ensures { result ≡ reply_of answer }
{
    match answer {
        Answer::New(held) => Reply::New(held.bits()),
        Answer::Joined(held) => Reply::Joined(held.bits()),
        Answer::Full => Reply::Full,
        Answer::Dropped(held) => Reply::Dropped(held.bits()),
        Answer::Absent => Reply::Absent,
        Answer::Found(held) => Reply::Found(held.bits()),
    }
}

pub fn refused<F: BlockFault>(fault: &RegisterFault<F>) -> Reply
    ensures { result ≡ Refused (told F.BlockFault fault.now).number }
{
    Reply::Refused(fault.number())
}

// An open batch, with the token that its end spends.
pub struct Batch<S> {
    open: Open<S>,
    token: Token,
}

#[derive(Drop)]
pub struct Desk {
    cells: Vec<Option<Record<u32, Papers>>>,
    scratch: Vec<Option<Record<u32, Papers>>>,
    work: Vec<u8>,
}

impl Desk {
    // With work bytes for a store of so many bytes.
    pub fn new(heap: Global, bytes: usize) -> Result<Desk, AllocError> {
        Ok(Desk {
            cells: vec![in heap; None; CELLS]?,
            scratch: vec![in heap; None; CELLS]?,
            work: vec![in heap; 0; bytes]?,
        })
    }

    // Refused, the closed register comes back with the fault.
    pub fn start<S: Store>(
        &mut self,
        closed: Closed<S>,
    ) -> Result<Batch<S>, (Closed<S>, RegisterFault<S::Fault>)> {
        let (open, token) = start::<S, StaffNumber, Papers>(closed, SEED, &mut self.cells)?;
        Ok(Batch { open, token })
    }

    // Answers a sheet. Since only the register writes the cells, none is refused.
    pub fn enter<S: Store>(
        &mut self,
        batch: &mut Batch<S>,
        sheet: &[Command<u32, Papers>],
        answers: &mut [Answer<Papers>],
    ) -> Result<(), RegisterFault<S::Fault>> {
        enter::<S, StaffNumber, Papers>(
            &mut batch.open,
            &mut self.cells,
            &mut self.scratch,
            sheet,
            answers,
        )
    }

    // Seals and begins again on what was sealed; where the seal is refused, the batch goes on. The scratch takes the list,
    // whose count is printed. Gives the batch, or the closed register where none could be begun, and the line to print.
    pub fn seal<S: Store>(&mut self, batch: Batch<S>) -> (Result<Batch<S>, Closed<S>>, Reply) {
        let Batch { open, token } = batch;
        // Matches, here and in `begin`, since the batch or the closed register goes into either answer.
        let count = match list::<S, StaffNumber, Papers>(&open, &self.cells, &mut self.scratch) {
            Ok(count) => count,
            Err(fault) => return (Ok(Batch { open, token }), refused(&fault)),
        };
        match seal::<S, StaffNumber, Papers>(open, token, &mut self.cells, &mut self.work) {
            Ok(closed) => self.begin(closed, Reply::Sealed(count)),
            Err((open, token, fault)) => (Ok(Batch { open, token }), refused(&fault)),
        }
    }

    // Prints the reply where a batch is begun.
    fn begin<S: Store>(
        &mut self,
        closed: Closed<S>,
        reply: Reply,
    ) -> (Result<Batch<S>, Closed<S>>, Reply) {
        match begin::<S, StaffNumber, Papers>(closed, &mut self.cells, &mut self.work) {
            Ok((open, token)) => (Ok(Batch { open, token }), reply),
            Err((closed, fault)) => (Err(closed), refused(&fault)),
        }
    }

    pub fn abandon<S: Store>(&mut self, batch: Batch<S>) -> Closed<S> {
        let Batch { open, token } = batch;
        abandon::<S, StaffNumber, Papers>(open, token, &mut self.cells)
    }
}
