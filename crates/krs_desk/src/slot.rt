//! What a slot of the table holds.
use crate::boxed::BoxedStore;
use krs_types::{Ask, Reply};

/// In the first slot the store, while it is at home. In a lane's slot an ask that was posted, or its reply.
#[derive(Drop)]
pub enum SlotValue {
    Empty,
    Home(BoxedStore),
    Asked(u64, Ask),
    Replied(Reply),
}
