// Digests of the curves' answers, to see whether another version still answers every pattern alike.

#![tactic(auto)]

mod fold;
mod request;

use accuracy::function::Function;
use fold::{Every, block_digest, whole_digest};
use query::{ArithmeticName, Pair};
use request::{Blocks, Request, USAGE, read_request};
use std::{env, io};

fn print_blocks(rt: &HostRuntime, pair: Pair, every: Every, blocks: Blocks) -> io::Result<()> {
    // a range made here, since `Blocks` can hold none (it is `Copy`)
    for number in blocks.first..blocks.first + blocks.count {
        let digest = block_digest(pair, every, number);
        println!(rt; "{pair} block {number} 0x{digest:016x}")?;
    }
    Ok(())
}

fn print_whole(rt: &HostRuntime, pair: Pair, every: Every) -> io::Result<()> {
    let digest = whole_digest(pair, every);
    println!(rt; "{pair} 0x{digest:016x}")
}

fn print_sample(rt: &HostRuntime, every: Every) -> io::Result<()> {
    for arithmetic in ArithmeticName::ALL {
        for curve in Function::ALL {
            print_whole(rt, Pair { curve, arithmetic }, every)?;
        }
    }
    Ok(())
}

fn answer(rt: &HostRuntime, asked: Request) -> io::Result<()> {
    match asked {
        Request::Help => rt.println(USAGE),
        Request::Whole(pair) => print_whole(rt, pair, Every::all()),
        Request::Each(pair, blocks) => print_blocks(rt, pair, Every::all(), blocks),
        Request::Sample(every) => print_sample(rt, every),
    }
}

fn main(rt: HostRuntime) -> io::Result<()> {
    let words = env::args(&rt)?.skip(1).collect::<Vec<String>>(rt.alloc())?;
    match read_request(words.as_slice()) {
        Ok(asked) => answer(&rt, asked),
        Err(mistake) => {
            eprintln!(rt; "digest: {mistake}")?;
            Err(io::Error::from(io::ErrorKind::InvalidInput))
        }
    }
}
