// Carries out one list of commands on two sheets: a till that fuses, and a cabinet that rounds twice.

#![tactic(auto)]

mod list;
mod words;

use arithmetic::{FmaBackend, GenericExpfBackend};
use list::{COMMANDS, step};
use sheet::fault::Fault;
use sheet::peg::Peg;
use sheet::replay::{LayFault, TwinStep, replay_both};
use std::io;
use words::{Said, Told};

type Step = TwinStep<FmaBackend, GenericExpfBackend>;

// How two answers compare.
#[derive(Clone, Copy, Debug, PartialEq, Eq)]
enum Comparison {
    Equal,
    Neighbouring,
    Apart,
}

fn compare(left: Result<u32, Fault>, right: Result<u32, Fault>) -> Comparison {
    match (left, right) {
        _ if left == right => Comparison::Equal,
        (Ok(v), Ok(w)) if v.abs_diff(w) == 1 => Comparison::Neighbouring,
        _ => Comparison::Apart,
    }
}

// Says what was done, and what either answered.
fn tell(rt: &HostRuntime, at: usize, step: &Step) -> io::Result<Comparison> {
    let left = Told {
        command: step.command,
        answer: step.left_answer,
    };
    let right = Told {
        command: step.command,
        answer: step.right_answer,
    };
    let comparison = compare(step.left_answer, step.right_answer);
    println!(rt; "{at}. {}", Said(step.command))?;
    match comparison {
        Comparison::Equal => println!(rt; "   both: {left}")?,
        Comparison::Neighbouring => println!(rt;
            "   till: {left}; cabinet: {right}; neighbouring"
        )?,
        Comparison::Apart => println!(rt; "   till: {left}; cabinet: {right}; apart")?,
    }
    Ok(comparison)
}

fn tell_all(rt: &HostRuntime, list: &[Step]) -> io::Result<()> {
    let mut equal = 0usize;
    let mut neighbouring = 0usize;
    let mut apart = 0usize;
    for (at, step) in list.iter().enumerate() {
        match tell(rt, at, step)? {
            Comparison::Equal => equal += 1,
            Comparison::Neighbouring => neighbouring += 1,
            Comparison::Apart => apart += 1,
        }
    }
    println!(rt;
        "Answers: {equal} equal, {neighbouring} patterns of neighbouring figures, {apart} apart."
    )
}

fn main(rt: HostRuntime) -> io::Result<()> {
    let mut till = [Peg::blank(); 6];
    let mut cabinet = [Peg::blank(); 6];
    let mut list = COMMANDS.map(step);
    match replay_both(&mut till, &mut cabinet, &mut list) {
        Err(LayFault::Left(fault)) => println!(rt; "The till was not laid: {fault}."),
        Err(LayFault::Right(fault)) => println!(rt; "The cabinet was not laid: {fault}."),
        Ok((m, n)) => {
            println!(rt;
                "A till that fuses, with {m} pegs, and a cabinet that rounds twice, with {n}."
            )?;
            tell_all(&rt, &list)
        }
    }
}
