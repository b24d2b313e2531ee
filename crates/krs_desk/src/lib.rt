//! A store that any number of threads share, each by a seat of its own. There is one history of all calls: each reply
//! is the sequential store's at one point of it, and a contract sees a seat as what it knows of that history. A call
//! may be posted, and is then answered in a turn of `call` or `help`. A seat may keep its turn for calls that follow.
#![tactic(auto)]

mod awaiting;
mod bells;
mod board;
mod boxed;
mod calling;
mod closing;
mod confidentiality;
mod desk;
mod giving;
mod helping;
mod integrity;
mod keeping;
mod laws;
mod meeting;
mod nobody;
mod opening;
mod posted;
mod posting;
mod seat;
mod served_call;
mod slot;
mod steps;
mod token;
mod waiting;
mod word;

pub use awaiting::Awaits;
pub use closing::Stopped;
pub use desk::Desk;
pub use helping::Helped;
pub use opening::{Refused, Why};
pub use posted::Posted;
pub use seat::Seat;
