//! The slot board: tables of tickets and slots, the steps that work on them, and the calls.
#![tactic(auto)]

mod act;
pub mod audit;
pub mod board;
mod calls;
pub mod chooser;
mod column;
mod drive;
pub mod evening;
mod face;
mod look;
pub mod lowest;
mod mask;
mod reading;
pub mod staying;
mod step;
pub mod tables;
mod tally;
mod walk;
