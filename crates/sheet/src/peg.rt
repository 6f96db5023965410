// A row of a sheet. Its fields are private: other code can make only a blank one.
ghost use Rattle.std.specs.Prelude.{◌≡◌, to_bits};
ghost use Rattle.std.specs.Float.{binary32};
ghost use Rattle.sheet.specs.Pegs.{blank, entered, worked};

use accuracy::function::Function;
use arithmetic::ExpfBackend;
use std::num::f32_to_bits_with_nan;

#[derive(Clone, Copy, Debug, PartialEq, Eq)]
pub enum Mark {
    Blank,
    Entered,
    Worked,
}

// The project's rules make a peg a plain row with a function, an input, a figure and a mark, where a blank one has code 0 and zeros.
#[derive(Clone, Copy, Debug, PartialEq)]
pub struct Peg {
    function: Function,
    input: f32,
    figure: f32,
    mark: Mark,
}

impl Peg {
    pub const fn blank() -> Peg
        ensures { result ≡ blank }
    {
        Peg {
            function: Function::Exp,
            input: 0.0,
            figure: 0.0,
            mark: Mark::Blank,
        }
    }

    pub(crate) fn entered(function: Function, input: f32) -> Peg
        ensures { result ≡ entered function input }
    {
        Peg {
            function,
            input,
            figure: 0.0,
            mark: Mark::Entered,
        }
    }

    // The same peg with its figure.
    pub(crate) fn worked<B: ExpfBackend>(self, arith: &B) -> Peg
        ensures { result ≡ worked (B.ExpfBackend.meaning arith.now) self }
    {
        Peg {
            figure: self.function.figure(arith, self.input),
            mark: Mark::Worked,
            ..self
        }
    }

    pub fn mark(self) -> Mark
        ensures { result ≡ self.mark }
    {
        self.mark
    }

    // The pattern of the figure.
    pub(crate) fn pattern(self) -> u32
        ensures { result ≡ to_bits binary32 self.figure }
    {
        f32_to_bits_with_nan(self.figure)
    }
}
