//! The tests of the values, the hints to keyrings, the note records and the filters; of what no script of the client
//! can say of the store (two clients, the longest chains, and runs in which one allocation is refused); and of the
//! check of a history. They stand in a crate of their own, so that none of the crates below is proved a second time
//! with them.
#![tactic(auto)]

#[cfg(test)]
mod tests;
