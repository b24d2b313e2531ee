use krs_types::{Body, Reply};

/// What a line of a script comes to, which is printed.
#[derive(Drop)]
pub enum Output {
    /// The reply to what was asked.
    Reply(Reply),
    /// The serials that a listed keyring links, as READ gave them: 4 bytes each, the lowest first.
    Serials(Body),
    /// The records that READ_QUEUE gave.
    Records(Body),
}
