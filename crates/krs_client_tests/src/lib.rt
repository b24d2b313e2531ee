//! The tests of the client, by scripts and what they print, and by calls to a service. They stand in a crate of their
//! own, so that none of the crates below is proved a second time with them.
#![tactic(auto)]

#[cfg(test)]
mod tests;
