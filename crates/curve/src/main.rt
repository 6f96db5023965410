// Answers each line `CURVE ARITHMETIC X` of standard input with the pattern and the decimal of the curve's value.

#![tactic(auto)]

mod line;

use anyhow::anyhow;
use line::read_bytes;
use query::Query;
use std::io::{BufRead, BufReader, BufWriter, Write};
use std::num::f32_to_bits_with_nan;
use std::{env, io};

const HELP: &str = "curve: the value of an exponential curve on f32, one a line

Each line of standard input is CURVE ARITHMETIC X:
  CURVE       exp, exp2, exp10 or expm1
  ARITHMETIC  two-step (a product is rounded, and then the sum) or fused (once)
  X           a pattern in hexadecimal after 0x, as 0x3f800000, or a decimal number, as 1.5
For each line one line is written: the pattern of the value and its decimal, as
  0x402df854 2.7182817
A line that cannot be read gets `error: line N: ...` in its place; the lines around it are answered
all the same, and the program ends with status 1 after the last one.

Example: echo 'exp two-step 1' | curve
";

fn write_answer(out: &mut impl Write, q: Query) -> io::Result<()> {
    let y = q.answer();
    let bits = f32_to_bits_with_nan(y);
    writeln!(out, "{bits:#010x} {y:?}")
}

// Answers every line; how many could not be read.
fn answer_all(rt: &HostRuntime) -> io::Result<u64> {
    let mut out = BufWriter::new(rt.alloc(), rt.stdout())?;
    let lines = BufReader::new(rt.alloc(), rt.stdin())?.split(rt.alloc(), b'\n');
    let mut wrong = 0u64;
    // from 0, so that the reader's own end, an error after 2^64 - 2 lines, comes before that of the numbers
    for (before, text) in (0u64..).zip(lines) {
        let number = before + 1;
        match read_bytes(&text?) {
            Ok(q) => write_answer(&mut out, q)?,
            Err(m) => {
                writeln!(out, "error: line {number}: {m}")?;
                wrong = wrong.saturating_add(1);
            }
        }
    }
    out.flush()?;
    Ok(wrong)
}

// In `replay` too: a crate for these lines, since query has no input or output, would be no plainer.
fn wants_help(rt: &HostRuntime) -> io::Result<bool> {
    Ok(
        env::args(rt)?
            .skip(1)
            .any(|word| word.as_str() == "--help" || word.as_str() == "-h"),
    )
}

fn run(rt: &HostRuntime) -> anyhow::Result<()> {
    if wants_help(rt)? {
        rt.print(HELP)?;
        return Ok(());
    }
    match answer_all(rt)? {
        0 => Ok(()),
        1 => Err(anyhow!("one line could not be read")),
        _ => Err(anyhow!("some lines could not be read")),
    }
}

fn main(rt: HostRuntime) -> anyhow::Result<()> {
    run(&rt)
}
