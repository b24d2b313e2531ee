ghost use Rattle.std.specs.Prelude.{◌↔◌, ◌≡◌, IfOk, IsTrue};
ghost use Rattle.krs_types.specs.{Growth.grows, Rows.row_of};

use crate::{Blob, Body, Caller, Errno, FilterEntries, TypeName};
use std::alloc::{AllocError, Global};

/// The one flag of MOVE, that the destination must have no link of equal type and description: uapi linux/keyctl.h,
/// KEYCTL_MOVE_EXCL.
pub const MOVE_EXCL: u32 = 1;

/// What a client asks in one of its contexts.
#[derive(Drop)]
pub struct Ask {
    pub context: u32,
    pub op: Op,
}

/// What is asked. A key id is as `KeyId::from_i32` reads it, texts and payloads are as the client gave them.
#[derive(Drop)]
pub enum Op {
    /// A context of its own for this caller.
    Hello(Caller),
    /// A context beside this one, in its process.
    Thread,
    /// A context of the same caller in a process of its own.
    Fork,
    /// The other contexts of the process end, and its thread and process attachments are emptied.
    Exec,
    /// The serial that an id stands for, with a thread or process keyring made where it is wanted: keyctl(2),
    /// KEYCTL_GET_KEYRING_ID.
    GetId {
        id: i32,
        create: bool,
    },
    /// A session keyring, of this name or of none: keyctl(2), KEYCTL_JOIN_SESSION_KEYRING.
    Join {
        name: Blob,
    },
    /// A key of that type and description, from a keyring on, linked to the destination where it is not 0: keyctl(2),
    /// KEYCTL_SEARCH.
    Search {
        head: i32,
        type_name: TypeName,
        desc: Blob,
        dest: i32,
    },
    /// A key of that type and description, from the attached keyrings on, linked to the destination where it is not 0:
    /// request_key(2).
    Request {
        type_name: TypeName,
        desc: Blob,
        dest: i32,
    },
    /// A new key in a keyring, or a new payload for the one that stands there: add_key(2).
    Add {
        type_name: TypeName,
        desc: Blob,
        payload: Blob,
        ring: i32,
    },
    /// Another payload for a key: keyctl(2), KEYCTL_UPDATE.
    Update {
        id: i32,
        payload: Blob,
    },
    /// The end of a key, for good: keyctl(2), KEYCTL_REVOKE.
    Revoke {
        id: i32,
    },
    /// A key out of every keyring and every attachment: keyctl(2), KEYCTL_INVALIDATE.
    Invalidate {
        id: i32,
    },
    /// Another owner and group of a key; `UNCHANGED` leaves what is there: keyctl(2), KEYCTL_CHOWN.
    Chown {
        id: i32,
        uid: u32,
        gid: u32,
    },
    /// Another permission mask of a key: keyctl(2), KEYCTL_SETPERM.
    SetPerm {
        id: i32,
        mask: u32,
    },
    /// When the time of a key is over, in seconds from now; never for 0: keyctl(2), KEYCTL_SET_TIMEOUT.
    SetTimeout {
        id: i32,
        seconds: u32,
    },
    /// One more link in a keyring: keyctl(2), KEYCTL_LINK.
    Link {
        key: i32,
        ring: i32,
    },
    /// One link less in a keyring: keyctl(2), KEYCTL_UNLINK.
    Unlink {
        key: i32,
        ring: i32,
    },
    /// A link out of one keyring and into another, in one step: keyctl(2), KEYCTL_MOVE. With the flag `MOVE_EXCL` it
    /// displaces none.
    Move {
        key: i32,
        from: i32,
        to: i32,
        flags: u32,
    },
    /// A keyring without its links: keyctl(2), KEYCTL_CLEAR.
    Clear {
        id: i32,
    },
    /// No further link in a keyring, for good, where no type is named: keyctl(2), KEYCTL_RESTRICT_KEYRING.
    RestrictKeyring {
        ring: i32,
        type_name: TypeName,
    },
    /// The payload of a key, or the serials that a keyring links: keyctl(2), KEYCTL_READ.
    Read {
        id: i32,
    },
    /// A key as text: keyctl(2), KEYCTL_DESCRIBE.
    Describe {
        id: i32,
    },
    /// A queue's watch of a key, with an id of 0 to 255; -1 ends the watch that is there:
    /// uapi linux/keyctl.h, KEYCTL_WATCH_KEY; Documentation/security/keys/core.rst.
    Watch {
        id: i32,
        queue: u32,
        watch: i32,
    },
    /// A queue of that many records: core-api/watch_queue.rst, "Watch Queue (Notification Output) API".
    OpenQueue {
        capacity: u32,
    },
    /// Another filter of a queue: core-api/watch_queue.rst, "Event Filtering".
    SetFilter {
        queue: u32,
        entries: FilterEntries,
    },
    /// The records of a queue, as many as fit into that many bytes: core-api/watch_queue.rst, "Watch Queue
    /// (Notification Output) API".
    ReadQueue {
        queue: u32,
        room: u32,
    },
    /// The end of a queue and of its watches.
    CloseQueue {
        queue: u32,
    },
    /// The end of this context.
    Exit,
    /// The end of all that the client has.
    Leave,
}

/// What an accepted ask is answered with.
#[derive(Drop)]
pub enum Answer {
    Nothing,
    /// A serial, a context or a queue.
    Number(u32),
    Bytes(Body),
}

pub type Reply = Result<Answer, Errno>;

/// Whether two replies are equal.
pub fn is_same_reply(a: &Reply, b: &Reply) -> bool
    ensures { IsTrue result ↔ (a.now ≡ b.now) }
{
    match (a, b) {
        (Ok(x), Ok(y)) => x.is_same(y),
        (Err(x), Err(y)) => *x == *y,
        _ => false,
    }
}

impl Answer {
    /// Whether two answers are equal.
    pub fn is_same(&self, other: &Answer) -> bool
        ensures { IsTrue result ↔ (self.now ≡ other.now) }
    {
        match (self, other) {
            (Answer::Nothing, Answer::Nothing) => true,
            (Answer::Number(x), Answer::Number(y)) => *x == *y,
            (Answer::Bytes(x), Answer::Bytes(y)) => x.as_slice() == y.as_slice(),
            _ => false,
        }
    }

    /// An equal value.
    pub fn copy(&self, alloc: Global) -> Result<Answer, AllocError>
        ensures { IfOk result (λ copy. copy ≡ self.now) }
    {
        Ok(match self {
            Answer::Nothing => Answer::Nothing,
            Answer::Number(number) => Answer::Number(*number),
            Answer::Bytes(body) => Answer::Bytes(body.copy(alloc)?),
        })
    }
}

impl Ask {
    /// An equal value.
    pub fn copy(&self, alloc: Global) -> Result<Ask, AllocError>
        ensures { IfOk result (λ copy. copy ≡ self.now) }
    {
        Ok(Ask {
            context: self.context,
            op: self.op.copy(alloc)?,
        })
    }
}

/// The asks, a row each, for a macro that is named first: the variant, its number on the wire, the kind of its answer,
/// its marks, and its fields, each with its form, in the order of the wire. A mark is there, isn't (`-`), or hangs on a
/// field; `Op::grows`, `Op::is_long` and `Op::tells` say what each means.
#[macro_export]
macro_rules! asks {
    ($rows:ident, $($argument:expr),*) => {
        $rows!($($argument),*;
            GetId 0 Number [(create) - -] { id: id, create: flag };
            Join 1 Number [grows long -] { name: text };
            Update 2 Nothing [grows - tells] { id: id, payload: blob };
            Revoke 3 Nothing [- long tells] { id: id };
            Chown 4 Nothing [- - tells] { id: id, uid: number, gid: number };
            SetPerm 5 Nothing [- - tells] { id: id, mask: number };
            Describe 6 Bytes [grows - -] { id: id };
            Clear 7 Nothing [- long tells] { id: id };
            Link 8 Nothing [grows long tells] { key: id, ring: id };
            Unlink 9 Nothing [- long tells] { key: id, ring: id };
            Search 10 Number [(dest != 0) long (dest != 0)] { head: id, type_name: type_name, desc: text, dest: id };
            Read 11 Bytes [grows - -] { id: id };
            SetTimeout 15 Nothing [- - tells] { id: id, seconds: number };
            Invalidate 21 Nothing [- long tells] { id: id };
            RestrictKeyring 29 Nothing [- - -] { ring: id, type_name: type_name };
            Move 30 Nothing [grows long tells] { key: id, from: id, to: id, flags: number };
            Watch 32 Nothing [(watch != -1) - -] { id: id, queue: number, watch: id };
            Hello 256 Number [grows - -] (caller: caller);
            Thread 257 Number [grows - -] {};
            Fork 258 Number [grows - -] {};
            Exec 259 Nothing [- long -] {};
            Exit 260 Nothing [- long -] {};
            Leave 261 Nothing [- long -] {};
            Add 262 Number [grows (type_name.names_keyrings()) tells]
                { type_name: type_name, desc: text, payload: blob, ring: id };
            Request 263 Number [(dest != 0) long (dest != 0)] { type_name: type_name, desc: text, dest: id };
            OpenQueue 264 Number [grows - -] { capacity: number };
            SetFilter 265 Nothing [grows - -] { queue: number, entries: entries };
            ReadQueue 266 Bytes [grows - -] { queue: number, room: number };
            CloseQueue 267 Nothing [- long -] { queue: number };
        )
    };
}

macro_rules! numbers {
    ($op:expr; $($ask:ident $number:literal $shape:ident $marks:tt $fields:tt;)*) => {
        match $op {
            $(Op::$ask { .. } => $number,)*
        }
    };
}

macro_rules! growths {
    ($op:expr; $($ask:ident $number:literal $shape:ident [$grows:tt $long:tt $tells:tt] $fields:tt;)*) => {
        marked!($op; $($ask $grows;)*)
    };
}

macro_rules! long_asks {
    ($op:expr; $($ask:ident $number:literal $shape:ident [$grows:tt $long:tt $tells:tt] $fields:tt;)*) => {
        marked!($op; $($ask $long;)*)
    };
}

macro_rules! tellings {
    ($op:expr; $($ask:ident $number:literal $shape:ident [$grows:tt $long:tt $tells:tt] $fields:tt;)*) => {
        marked!($op; $($ask $tells;)*)
    };
}

/// Whether an ask has the mark that each row gives.
macro_rules! marked {
    ($op:expr; $($ask:ident $mark:tt;)*) => {
        match $op {
            $(marked!(@ask $ask $mark) => marked!(@holds $mark),)*
        }
    };
    (@ask $ask:ident ($field:ident $($test:tt)*)) => { Op::$ask { $field, .. } };
    (@ask $ask:ident $mark:tt) => { Op::$ask { .. } };
    (@holds -) => { false };
    (@holds ($field:ident.$test:ident())) => { $field.$test() };
    (@holds ($field:ident $($test:tt)*)) => { *$field $($test)* };
    (@holds $mark:ident) => { true };
}

macro_rules! copies {
    ($op:expr, $alloc:expr; $($ask:ident $number:literal $shape:ident $marks:tt $fields:tt;)*) => {
        match $op {
            $(copies!(@ask $ask $fields) => copies!(@copy $alloc, $ask $fields),)*
        }
    };
    (@ask $ask:ident {$($field:ident: $form:ident),*}) => { Op::$ask { $($field),* } };
    (@ask $ask:ident ($field:ident: $form:ident)) => { Op::$ask($field) };
    (@copy $alloc:expr, $ask:ident {$($field:ident: $form:ident),*}) => {
        Op::$ask { $($field: copies!(@field $alloc, $form $field)),* }
    };
    (@copy $alloc:expr, $ask:ident ($field:ident: $form:ident)) => {
        Op::$ask(copies!(@field $alloc, $form $field))
    };
    (@field $alloc:expr, number $field:ident) => { *$field };
    (@field $alloc:expr, id $field:ident) => { *$field };
    (@field $alloc:expr, flag $field:ident) => { *$field };
    (@field $alloc:expr, $form:ident $field:ident) => { $field.copy($alloc)? };
}

impl Op {
    /// Its number on the wire.
    pub fn number(&self) -> u16
        ensures { result ≡ (row_of self.now).number }
    {
        asks!(numbers, self)
    }

    /// Whether it takes memory, so that it may find none.
    pub fn grows(&self) -> bool
        ensures { result ≡ grows self.now }
    {
        asks!(growths, self)
    }

    /// Whether it may walk far along links, or drop more than one key or record: behind such a one its client doesn't
    /// keep others waiting.
    pub fn is_long(&self) -> bool
        ensures { result ≡ (row_of self.now).long }
    {
        asks!(long_asks, self)
    }

    /// Whether it tells of something, if it is accepted: the others post no note.
    pub fn tells(&self) -> bool
        ensures { result ≡ (row_of self.now).tells }
    {
        asks!(tellings, self)
    }

    /// An equal value.
    pub fn copy(&self, alloc: Global) -> Result<Op, AllocError>
        ensures { IfOk result (λ copy. copy ≡ self.now) }
    {
        Ok(asks!(copies, self, alloc))
    }
}
