// Cards, replies and the run.

#![tactic(auto)]

pub mod card;
pub mod counts;
mod fields;
pub mod reply;
pub mod run;
pub mod stream;
