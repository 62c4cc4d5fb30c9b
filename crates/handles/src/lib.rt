//! Bookings held as values: a slip for a booking, a grant for a collected window. Neither can be
//! copied, made up or let go, so a program that holds one gives it up by one of the calls here.
#![tactic(auto)]

pub mod desk;
pub mod grant;
pub mod slip;
