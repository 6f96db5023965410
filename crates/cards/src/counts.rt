// A run, open and closed, and its counts.
ghost use Rattle.std.specs.Prelude.{◌≤◌};

use std::fmt;

// Cards taken, cards refused and pegs worked.
#[derive(Clone, Copy, Debug, Default, PartialEq, Eq)]
pub(crate) struct Counts {
    pub(crate) taken: u16,
    pub(crate) refused: u16,
    pub(crate) worked: u32,
}

// A run that takes cards. Closing it uses it up.
pub struct OpenRun {
    pub(crate) counts: Counts,
    ghost within: { counts.refused ≤ counts.taken },
}

// A run that tells its counts.
#[derive(Clone, Copy, PartialEq, Eq)]
pub struct ClosedRun {
    pub(crate) counts: Counts,
}

// By hand: a reader of the print sees the three counts, and not the struct that holds them.
impl fmt::Debug for ClosedRun {
    fn fmt<W: fmt::Write>(&self, f: &mut fmt::Formatter<W>) -> fmt::Result {
        f.debug_struct("ClosedRun")
            .field("taken", &self.counts.taken)
            .field("refused", &self.counts.refused)
            .field("worked", &self.counts.worked)
            .finish()
    }
}

#[cfg(test)]
mod tests {
    use super::*;
    use std::alloc::AllocError;

    // As a reader sees them: each count by its name.
    #[test]
    fn prints_its_counts(rt: HostRuntime) -> Result<(), AllocError> {
        let run = ClosedRun {
            counts: Counts {
                taken: 3,
                refused: 1,
                worked: 128,
            },
        };
        let text = format!(in rt.alloc(); "{run:?}")?;
        assert_eq!(rt;
            text.as_str(),
            "ClosedRun { taken: 3, refused: 1, worked: 128 }"
        );
        Ok(())
    }
}
