use krs_wire::WireFault;

/// Why a session ended.
#[derive(Clone, Copy, Debug, PartialEq, Eq)]
pub enum Ended {
    /// A read gave no bytes.
    Closed,
    /// The stream has a fault, which is never Memory.
    Wire(WireFault),
    /// A read failed.
    Read,
    /// A write failed, or took no bytes.
    Write,
    /// No memory was left for a piece of the stream, or for a reply.
    Memory,
    /// As many reads were made as were allowed.
    Turns,
}
