// Commands and answers in words.
use accuracy::function::Function;
use sheet::fault::Fault;
use sheet::replay::Command;
use std::fmt;
use std::num::f32_from_bits_with_nan;

// A command as a line says it.
#[derive(Clone, Copy)]
pub struct Said(pub Command);

impl fmt::Display for Said {
    fn fmt<W: fmt::Write>(&self, f: &mut fmt::Formatter<W>) -> fmt::Result {
        match self.0 {
            Command::Lay => write!(f, "lay"),
            Command::Enter { peg, code, input } => match Function::try_from(code) {
                Ok(function) => write!(f, "enter peg {peg}: code {code}, {function}, of {input:?}"),
                Err(_) => write!(f, "enter peg {peg}: code {code}, no function, of {input:?}"),
            },
            Command::Work { first, count } => write!(f, "work {count} pegs from peg {first}"),
            Command::Read { peg } => write!(f, "read peg {peg}"),
            Command::Clear { peg } => write!(f, "clear peg {peg}"),
        }
    }
}

// The answer to a command.
#[derive(Clone, Copy)]
pub struct Told {
    pub command: Command,
    pub answer: Result<u32, Fault>,
}

impl fmt::Display for Told {
    fn fmt<W: fmt::Write>(&self, f: &mut fmt::Formatter<W>) -> fmt::Result {
        match self.answer {
            Err(fault) => write!(f, "refused by line {}, {fault}", u8::from(fault)),
            Ok(v) => match self.command {
                Command::Lay => write!(f, "{v} pegs are blank"),
                Command::Enter { .. } => write!(f, "entered"),
                Command::Work { .. } => write!(f, "{v} became worked"),
                Command::Read { .. } => {
                    let figure = f32_from_bits_with_nan(v);
                    write!(f, "{v:#010x}, that is {figure:?}")
                }
                Command::Clear { .. } => write!(f, "blank again"),
            },
        }
    }
}
