// How many lines there were for each curve and arithmetic, and how they compared.
ghost use Rattle.std.specs.Prelude.{◌≡◌};
ghost use Rattle.replay.specs.Judged.{tallied};

use crate::judge::Verdict;
use accuracy::function::Function;
use query::{ArithmeticName, Pair};
use std::fmt;

#[derive(Clone, Copy)]
pub struct Tally {
    pub pair: Pair,
    lines: u64,
    equal: u64,
    known: u64,
}

impl Tally {
    fn new(pair: Pair) -> Tally
        ensures { result.pair ≡ pair }
    {
        Tally {
            pair,
            lines: 0,
            equal: 0,
            known: 0,
        }
    }

    fn add(&mut self, verdict: Verdict)
        ensures { self.new ≡ tallied self.old verdict }
    {
        self.lines = self.lines.saturating_add(1);
        match verdict {
            Verdict::Equal => self.equal = self.equal.saturating_add(1),
            Verdict::Known(_) => self.known = self.known.saturating_add(1),
            Verdict::Different(_) => {}
        }
    }

    // Lines on which the answers differ as they should not.
    pub fn wrong(&self) -> u64 {
        self.lines
            .saturating_sub(self.equal)
            .saturating_sub(self.known)
    }
}

impl fmt::Display for Tally {
    fn fmt<W: fmt::Write>(&self, f: &mut fmt::Formatter<W>) -> fmt::Result {
        let pair = self.pair;
        let lines = self.lines;
        let equal = self.equal;
        write!(f, "{pair}: {lines} lines, {equal} equal")?;
        if self.known > 0 {
            let known = self.known;
            write!(f, ", {known} different as expected near one")?;
        }
        if self.wrong() > 0 {
            let wrong = self.wrong();
            write!(f, ", {wrong} DIFFERENT")?;
        }
        Ok(())
    }
}

// One tally for each curve and arithmetic.
pub fn tallies() -> [[Tally; 2]; 4] {
    Function::ALL.map(|curve| {
        ArithmeticName::ALL.map(|arithmetic| Tally::new(Pair { curve, arithmetic }))
    })
}

// Adds the verdict to every tally of the pair.
pub fn add_to(all: &mut [Tally], pair: Pair, verdict: Verdict) {
    for tally in all.iter_mut().filter(|tally| tally.pair == pair) {
        tally.add(verdict);
    }
}
