//! The rules of the slot board: the plain types of the subject, what the calls mean (specs/), and
//! what holds after every list of calls (laws, proved in proofs/).
#![tactic(auto)]

pub mod asked;
pub mod laws;
pub mod rack;
pub mod refusal;
pub mod report;
pub mod slot;
pub mod span;
pub mod ticket;
