//! The tests of the frames, each ask and reply as docs/FORMAT.md encodes it, and streams with a fault; and of sessions,
//! with every ask, and ends that fail. They stand in a crate of their own, so that none of the crates below is proved a
//! second time with them.
#![tactic(auto)]

#[cfg(test)]
mod tests;
