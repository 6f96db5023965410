// Lists of calls, carried out one after the other.
ghost use Rattle.sheet.specs.Calls.{Does};
ghost use Rattle.sheet.specs.Histories.{Kept, Promise};
ghost use Rattle.sheet.specs.Lists.{call_of, Replayed, BothLaid, BothReplayed};

use crate::calls::{clear, enter, lay, read, size, work};
use crate::fault::Fault;
use crate::peg::Peg;
use arithmetic::ExpfBackend;

// The promise over every list of calls.
pub fn promise_holds()
    ensures { Promise }
{}

// A call, but for the sheet and the arithmetic that it is made with. A code is a number, as in `enter`.
#[derive(Clone, Copy, Debug, PartialEq)]
pub enum Command {
    Lay,
    Enter { peg: u16, code: u8, input: f32 },
    Work { first: u16, count: u32 },
    Read { peg: u16 },
    Clear { peg: u16 },
}

// Carries out one command. Only a work uses the arithmetic, so that it stays a parameter beside the sheet.
pub fn perform<A: ExpfBackend>(sheet: &mut [Peg], command: Command, arith: &A) -> Result<u32, Fault>
    ensures does { Does sheet.old (call_of (A.ExpfBackend.meaning arith.now) command) result sheet.new }
    ensures kept { Kept sheet.old (call_of (A.ExpfBackend.meaning arith.now) command) result sheet.new }
{
    match command {
        Command::Lay => lay(sheet),
        Command::Enter { peg, code, input } => enter(sheet, peg, code, input),
        Command::Work { first, count } => work(sheet, first, count, arith),
        Command::Read { peg } => read(sheet, peg),
        Command::Clear { peg } => clear(sheet, peg),
    }
}

// A command of a list, with its arithmetic, and its answer once it was carried out. Step and TwinStep both stand: one
// struct, generic in what goes with the command, would call the two sheets 0 and 1, and be no plainer;
// so do `replay` and `replay_both`, one list on one sheet and on two.
#[derive(Clone, Copy)]
pub struct Step<A> {
    pub command: Command,
    pub arith: A,
    pub answer: Result<u32, Fault>,
}

// Lays the sheet and carries out the commands of a list, and writes the answer of each beside it. Returns the number of pegs.
pub fn replay<A: ExpfBackend>(sheet: &mut [Peg], list: &mut [Step<A>]) -> Result<u32, Fault>
    ensures { Replayed A.ExpfBackend.meaning sheet.old list.old result sheet.new list.new }
{
    let n = lay(sheet)?;
    for step in list.iter_mut() {
        step.answer = perform(sheet, step.command, &step.arith);
    }
    Ok(n)
}

// A command for two sheets, with an arithmetic for either, and the answers of both once it was carried out.
#[derive(Clone, Copy)]
pub struct TwinStep<A, B> {
    pub command: Command,
    pub left_arith: A,
    pub right_arith: B,
    pub left_answer: Result<u32, Fault>,
    pub right_answer: Result<u32, Fault>,
}

// Which of two sheets cannot be laid, and why.
#[derive(Clone, Copy, Debug, PartialEq, Eq)]
pub enum LayFault {
    Left(Fault),
    Right(Fault),
}

// Lays both sheets, or neither.
fn lay_both(left: &mut [Peg], right: &mut [Peg]) -> Result<(u32, u32), LayFault>
    ensures { BothLaid left.old right.old result left.new right.new }
{
    let sizes = (
        size(left).map_err(LayFault::Left)?,
        size(right).map_err(LayFault::Right)?,
    );
    left.fill(Peg::blank());
    right.fill(Peg::blank());
    Ok(sizes)
}

// Lays two sheets and carries out the commands of a list on both. Returns their numbers of pegs.
pub fn replay_both<A: ExpfBackend, B: ExpfBackend>(
    left: &mut [Peg],
    right: &mut [Peg],
    list: &mut [TwinStep<A, B>],
) -> Result<(u32, u32), LayFault>
    ensures { BothReplayed A.ExpfBackend.meaning B.ExpfBackend.meaning left.old right.old list.old result left.new right.new list.new }
{
    let sizes = lay_both(left, right)?;
    for step in list.iter_mut() {
        step.left_answer = perform(left, step.command, &step.left_arith);
        step.right_answer = perform(right, step.command, &step.right_arith);
    }
    Ok(sizes)
}
