// A sheet of pegs in the caller's memory, the five calls on it, and lists of calls.

#![tactic(auto)]

pub mod calls;
pub mod fault;
pub mod peg;
pub mod replay;
