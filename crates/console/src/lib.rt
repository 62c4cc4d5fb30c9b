//! The first console: lines in, each of them refused on a page, faults that say where. How lines are
//! framed, read and written is the business of `text`.
#![tactic(auto)]

pub mod line;
pub mod session;

pub use text::{fault, frame, page, verb};
