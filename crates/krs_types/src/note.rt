ghost use Rattle.std.specs.Prelude.{◌≡◌, IfOk};

use std::alloc::{AllocError, Global};
use std::marker::Model;

/// What happened to a watched key: uapi linux/watch_queue.h, enum key_notification_subtype.
#[derive(Clone, Copy, Debug, PartialEq, Eq)]
pub enum KeyEvent {
    Instantiated,
    Updated,
    Linked,
    Unlinked,
    Cleared,
    Revoked,
    Invalidated,
    Setattr,
}

/// A record of a watch queue: core-api/watch_queue.rst, "Message structure".
#[derive(Clone, Copy, Debug, PartialEq, Eq)]
pub enum Record {
    /// A key note of a watch: the watched key, and the other key of a link, else 0.
    Key {
        subtype: KeyEvent,
        watch: u8,
        key: u32,
        aux: u32,
    },
    /// The watch is gone: its key was dropped, or its removal was asked for.
    Removal {
        watch: u8,
        id: u64,
    },
    /// Records were dropped behind the one before.
    Loss,
}

/// One line of a queue's filter: uapi linux/watch_queue.h, struct watch_notification_type_filter.
#[derive(Clone, Copy, Debug, PartialEq, Eq)]
pub struct FilterEntry {
    pub note_type: u32,
    pub info_filter: u32,
    pub info_mask: u32,
    /// A bit for each subtype: subtype s is bit s % 32 of word s / 32.
    pub subtypes: [u32; 8],
}

/// The lines of a filter as a client gave them, of any number.
#[derive(Drop)]
pub struct FilterEntries {
    entries: Vec<FilterEntry>,
}

impl Model for FilterEntries {
    ghost use Rattle.std.specs.Prelude.{List};
    ghost use Rattle.krs_types.specs.declared.note.FilterEntry.{FilterEntry};

    ghost Value = { List FilterEntry };

    ghost view = { λ f. f.entries.items };
}

impl FilterEntries {
    pub fn new(entries: Vec<FilterEntry>) -> Self
        ensures { result ≡ entries.items }
    {
        FilterEntries { entries }
    }

    pub fn as_slice(&self) -> &[FilterEntry]
        ensures { result.now ≡ self.now }
    {
        self.entries.as_slice()
    }

    pub fn into_vec(self) -> Vec<FilterEntry>
        ensures { result.items ≡ self }
    {
        self.entries
    }

    /// An equal value.
    pub fn copy(&self, alloc: Global) -> Result<FilterEntries, AllocError>
        ensures { IfOk result (λ copy. copy ≡ self.now) }
    {
        Ok(FilterEntries::new(Vec::from_slice(alloc, self.as_slice())?))
    }
}
