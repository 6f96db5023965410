// Our answer beside the one on a line.
ghost use Rattle.std.specs.Prelude.{◌≡◌, Decides};
ghost use Rattle.replay.specs.Judged.{ours, NearOne, Judged};

use crate::line::Recorded;
use accuracy::function::Function;

#[derive(Clone, Copy)]
pub enum Verdict {
    Equal,
    // another answer, ours, where the crate's is known not to be the nearest
    Known(u32),
    Different(u32),
}

fn is_near_one(line: Recorded) -> bool
    ensures { Decides result (NearOne line) }
{
    line.pair.curve == Function::Exp10 && (0xb25e_5bbb..=0xb25e_5bd9).contains(&line.pattern)
}

pub fn judge_line(line: Recorded) -> Verdict
    ensures { Judged line result }
{
    let answer = line.pair.answer_at(line.pattern);
    if answer == line.theirs {
        Verdict::Equal
    } else if is_near_one(line) {
        Verdict::Known(answer)
    } else {
        Verdict::Different(answer)
    }
}
