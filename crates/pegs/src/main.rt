// Plays cards of six bytes from standard input on a sheet of 128 pegs, in two-step arithmetic, and writes each reply and then the three counts.

#![tactic(auto)]

ghost use Rattle.std.specs.Prelude.{◌<◌, length, IfOk};
ghost use Rattle.std.specs.Io.KnownBytes.{Consumes, IsAtEnd};

use arithmetic::GenericExpfBackend;
use cards::counts::OpenRun;
use cards::reply::reply;
use cards::stream::CARD_SIZE;
use sheet::calls::lay;
use sheet::peg::Peg;
use std::io;
use std::io::{BufReader, BufWriter, Read, Write};

const PEGS: usize = 128;

// The next card, in the buffer: six bytes, or fewer at the end of the input.
fn next_card<'a, R: Read>(input: &mut R, buffer: &'a mut [u8; CARD_SIZE]) -> io::Result<&'a [u8]>
    ensures bytes { IfOk result (λ card. Consumes (R.remaining input.old) (R.remaining input.new) card.now) }
    ensures short { IfOk result (λ card. length card.now < 6 → IsAtEnd (R.remaining input.new)) }
{
    // by hand: a read may give fewer bytes than are asked for, and read_exact says not how many a short card has
    let mut filled = 0;
    while filled < CARD_SIZE {
        let n = input.read(&mut buffer[filled..])?;
        if n == 0 {
            break;
        }
        filled += n;
    }
    Ok(&buffer[..filled])
}

// Plays every card and writes its reply.
fn play_all(
    input: &mut impl Read,
    out: &mut impl Write,
    run: &mut OpenRun,
    sheet: &mut [Peg],
) -> io::Result<()> {
    let arith = GenericExpfBackend {};
    let mut buffer = [0u8; CARD_SIZE];
    // By a bound that no input reaches: a loop has to end, and `bytes` has the same bound inside and would be no plainer.
    for _ in 0..u64::MAX {
        let card = next_card(input, &mut buffer)?;
        if !card.is_empty() {
            out.write_all(&reply(run.take(card, sheet, &arith)))?;
        }
        // a short card is the last, and an empty one is none
        if card.len() < CARD_SIZE {
            break;
        }
    }
    Ok(())
}

fn run(rt: &HostRuntime) -> anyhow::Result<()> {
    let mut pegs = [Peg::blank(); PEGS];
    lay(&mut pegs)?;
    let mut input = BufReader::new(rt.alloc(), rt.stdin())?;
    let mut out = BufWriter::new(rt.alloc(), rt.stdout())?;
    let mut open = OpenRun::open();
    let played = play_all(&mut input, &mut out, &mut open, &mut pegs);
    let counts = open.close().told();
    played?;
    out.write_all(&counts)?;
    out.flush()?;
    Ok(())
}

fn main(rt: HostRuntime) -> anyhow::Result<()> {
    run(&rt)
}
