// The five calls on a sheet. Each says what it does and that the promise over every history is kept: two facts, so each stands by its name. A call
// that has no number to answer answers 0, as the rules have it.
ghost use Rattle.sheet.specs.Pegs.{Found};
ghost use Rattle.sheet.specs.Calls.{Does, Sized, laying, entering, working, reading, clearing};
ghost use Rattle.sheet.specs.Histories.{Kept, Starts};

use crate::fault::Fault;
use crate::peg::{Mark, Peg};
use accuracy::function::Function;
use arithmetic::ExpfBackend;

const LARGEST: usize = 4096;

// The number of pegs, if the sheet may be laid.
pub(crate) fn size(sheet: &[Peg]) -> Result<u32, Fault>
    ensures { Sized sheet.now result }
{
    let n = sheet.len();
    if n == 0 || n > LARGEST {
        return Err(Fault::SheetSize);
    }
    Ok(n as u32)
}

fn find(sheet: &[Peg], peg: u16) -> Result<Peg, Fault>
    ensures { Found sheet.now peg result }
{
    sheet.get(usize::from(peg)).copied().ok_or(Fault::PegNumber)
}

// Makes every peg blank.
pub fn lay(sheet: &mut [Peg]) -> Result<u32, Fault>
    ensures does { Does sheet.old laying result sheet.new }
    ensures kept { Kept sheet.old laying result sheet.new }
    ensures starts { Starts result sheet.new }
{
    let n = size(sheet)?;
    sheet.fill(Peg::blank());
    Ok(n)
}

// Gives a blank peg a function and an input. The code is a number, not a `Function`: the rules refuse one above 3, so a caller can give it.
pub fn enter(sheet: &mut [Peg], peg: u16, code: u8, input: f32) -> Result<u32, Fault>
    ensures does { Does sheet.old (entering peg code input) result sheet.new }
    ensures kept { Kept sheet.old (entering peg code input) result sheet.new }
{
    let function = Function::try_from(code)?;
    if !input.is_finite() {
        return Err(Fault::InputNotFinite);
    }
    if find(sheet, peg)?.mark() != Mark::Blank {
        return Err(Fault::PegNotBlank);
    }
    sheet[usize::from(peg)] = Peg::entered(function, input);
    Ok(0)
}

// Works the entered pegs of a part, and returns how many there were.
pub fn work<B: ExpfBackend>(
    sheet: &mut [Peg],
    first: u16,
    count: u32,
    arith: &B,
) -> Result<u32, Fault>
    ensures does { Does sheet.old (working first count (B.ExpfBackend.meaning arith.now)) result sheet.new }
    ensures kept { Kept sheet.old (working first count (B.ExpfBackend.meaning arith.now)) result sheet.new }
{
    let start = usize::from(first);
    let end = start + count as usize;
    if end > sheet.len() {
        return Err(Fault::PartRange);
    }
    let mut done = 0u32;
    for peg in &mut sheet[start..end] {
        if peg.mark() == Mark::Entered {
            *peg = peg.worked(arith);
            done += 1;
        }
    }
    Ok(done)
}

// The pattern of a worked peg's figure.
pub fn read(sheet: &[Peg], peg: u16) -> Result<u32, Fault>
    ensures does { Does sheet.now (reading peg) result sheet.now }
    ensures kept { Kept sheet.now (reading peg) result sheet.now }
{
    let found = find(sheet, peg)?;
    match found.mark() {
        Mark::Blank => Err(Fault::PegBlank),
        Mark::Entered => Err(Fault::PegNotWorked),
        Mark::Worked => Ok(found.pattern()),
    }
}

// Makes an entered or worked peg blank.
pub fn clear(sheet: &mut [Peg], peg: u16) -> Result<u32, Fault>
    ensures does { Does sheet.old (clearing peg) result sheet.new }
    ensures kept { Kept sheet.old (clearing peg) result sheet.new }
{
    if find(sheet, peg)?.mark() == Mark::Blank {
        return Err(Fault::PegBlank);
    }
    sheet[usize::from(peg)] = Peg::blank();
    Ok(0)
}
