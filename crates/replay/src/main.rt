// Works our answer for each line of a list of the crate's answers, and says where they differ.

#![tactic(auto)]

mod judge;
mod line;
mod tally;

use anyhow::anyhow;
use judge::{Verdict, judge_line};
use line::{Recorded, read_bytes};
use std::io::{BufRead, BufReader, BufWriter, Write};
use std::{env, io};
use tally::{add_to, tallies};

const HELP: &str = "replay: a list of the crate's answers beside ours

Each line of standard input is CURVE ARITHMETIC PATTERN ANSWER, as
  exp two-step 0x3f800000 0x402df854
with the curves exp, exp2, exp10 and expm1 and the arithmetics two-step and fused. Each line on which our answer
is another is written, and at the end how many lines there were of each pair. exp10 differs on purpose from
0xb25e5bbb to 0xb25e5bd9: there the crate works with a constant for ln 10 that is a little too large, and ours is
the f32 nearest to 10^x. The program ends with status 1 where any other line differs or a line cannot be read.
";

const NEAR_ONE: &str =
    "Near one, from 0xb25e5bbb to 0xb25e5bd9, exp10 differs on purpose: ours is the f32 nearest to 10^x.";

// Writes a line for answers that differ.
fn write_verdict(
    out: &mut impl Write,
    number: u64,
    line: Recorded,
    verdict: Verdict,
) -> io::Result<()> {
    let (ours, note) = match verdict {
        Verdict::Equal => return Ok(()),
        Verdict::Known(ours) => (ours, ", as expected near one"),
        Verdict::Different(ours) => (ours, ""),
    };
    let Recorded {
        pair,
        pattern,
        theirs,
    } = line;
    writeln!(
        out,
        "line {number}: {pair} at {pattern:#010x}: ours {ours:#010x}, the crate's {theirs:#010x}{note}"
    )
}

// Judges every line and writes the summary; how many lines differ as they should not or cannot be read.
fn replay_all(rt: &HostRuntime) -> io::Result<u64> {
    let mut out = BufWriter::new(rt.alloc(), rt.stdout())?;
    let lines = BufReader::new(rt.alloc(), rt.stdin())?.split(rt.alloc(), b'\n');
    let mut all = tallies();
    let mut wrong = 0u64;
    // from 0, so that the reader's own end, an error after 2^64 - 2 lines, comes before that of the numbers
    for (before, text) in (0u64..).zip(lines) {
        let number = before + 1;
        match read_bytes(&text?) {
            Ok(line) => {
                let verdict = judge_line(line);
                add_to(all.as_flattened_mut(), line.pair, verdict);
                write_verdict(&mut out, number, line, verdict)?;
            }
            Err(m) => {
                writeln!(out, "error: line {number}: {m}")?;
                wrong = wrong.saturating_add(1);
            }
        }
    }
    for tally in all.iter().flatten() {
        writeln!(out, "{tally}")?;
        wrong = wrong.saturating_add(tally.wrong());
    }
    writeln!(out, "{NEAR_ONE}")?;
    out.flush()?;
    Ok(wrong)
}

// In `curve` too: a crate for these lines, since query has no input or output, would be no plainer.
fn wants_help(rt: &HostRuntime) -> io::Result<bool> {
    Ok(
        env::args(rt)?
            .skip(1)
            .any(|word| word.as_str() == "--help" || word.as_str() == "-h"),
    )
}

fn run(rt: &HostRuntime) -> anyhow::Result<()> {
    if wants_help(rt)? {
        rt.print(HELP)?;
        return Ok(());
    }
    match replay_all(rt)? {
        0 => Ok(()),
        _ => Err(anyhow!("some lines differ or cannot be read")),
    }
}

fn main(rt: HostRuntime) -> anyhow::Result<()> {
    run(&rt)
}
