// The list of commands that the program carries out.
use arithmetic::{FmaBackend, GenericExpfBackend};
use sheet::replay::{Command, TwinStep};

pub const COMMANDS: [Command; 26] = [
    Command::Enter {
        peg: 0,
        code: 1,
        input: 3.0,
    },
    Command::Enter {
        peg: 1,
        code: 0,
        input: 1.0,
    },
    Command::Enter {
        peg: 2,
        code: 2,
        input: 0.5,
    },
    Command::Enter {
        peg: 3,
        code: 3,
        input: -0.0,
    },
    // refused by each line of enter
    Command::Enter {
        peg: 4,
        code: 4,
        input: 1.0,
    },
    Command::Enter {
        peg: 4,
        code: 0,
        input: f32::INFINITY,
    },
    Command::Enter {
        peg: 6,
        code: 0,
        input: 1.0,
    },
    Command::Enter {
        peg: 3,
        code: 0,
        input: 2.0,
    },
    // entered and not worked, and blank
    Command::Read { peg: 0 },
    Command::Read { peg: 4 },
    // beyond the last peg; then a part, the whole sheet, and no peg
    Command::Work { first: 1, count: 6 },
    Command::Work { first: 1, count: 2 },
    Command::Work { first: 0, count: 6 },
    Command::Work { first: 6, count: 0 },
    Command::Read { peg: 0 },
    Command::Read { peg: 1 },
    Command::Read { peg: 2 },
    Command::Read { peg: 3 },
    Command::Clear { peg: 3 },
    Command::Clear { peg: 3 },
    Command::Enter {
        peg: 3,
        code: 0,
        input: 100.0,
    },
    Command::Enter {
        peg: 4,
        code: 2,
        input: 0.1,
    },
    Command::Work { first: 0, count: 6 },
    Command::Read { peg: 3 },
    Command::Read { peg: 4 },
    Command::Lay,
];

// A command for a sheet that fuses and one that rounds twice.
pub fn step(command: Command) -> TwinStep<FmaBackend, GenericExpfBackend> {
    TwinStep {
        command,
        left_arith: FmaBackend {},
        right_arith: GenericExpfBackend {},
        left_answer: Ok(0),
        right_answer: Ok(0),
    }
}
