//! The tests of the shared store, by calls in turn, side by side and posted. They stand in a crate of their own, so
//! that none of the crates below is proved a second time with them. Desks with seats to test with are for other crates
//! too.
#![tactic(auto)]

mod seats;
#[cfg(test)]
mod tests;

pub use seats::{one_seat, opened, three_seats, two_seats};
