//! Walks over a key table: whether a link would close a cycle, how deep keyrings are nested, which keys are
//! possessed, and which one a search finds. Each goes over nested keyrings alone, and examines each once, however
//! often it is linked. The walker keeps the lists that this takes, and makes room in them when a key is made: a walk
//! takes no memory. Where a list has no room, a walk goes from keyring to keyring without one, and answers the same.
#![tactic(auto)]

mod cycle;
mod descent;
mod ends;
mod height;
mod held;
mod hints;
mod judging;
mod keyrings;
mod possessed;
mod possession;
mod search;
mod visits;
mod walker;

pub use possession::Sought;
use visits::Visits;
pub use walker::Walker;
