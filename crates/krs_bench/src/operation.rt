//! What is timed.

/// An ask as a line (`lines.rt`), and what bench/instructions calls it: `-` where it is counted elsewhere.
type Line = (&'static str, &'static str);

/// No second ask.
const NONE: Line = ("", "-");

/// Rounds of one ask, or of two that belong together: the word on the command line, the client that asks, its context
/// as `stocked` makes them, and the asks.
#[derive(Clone, Copy)]
pub struct Operation(&'static str, u32, u32, Line, Line);

/// The operations. A uid of 4294967295 leaves the owner, and the mask leaves the possessor all rights and the user
/// VIEW. All notes of keys pass the filter. Of `session` the keyring of the round before drops.
#[rattlefmt::skip]
static OPERATIONS: [Operation; 30] = [
    Operation("read", 0, 1, ("print KEY", "READ of a key"), NONE),
    Operation("list", 0, 1, ("rlist @u", "READ of the keyring"), NONE),
    Operation("describe", 0, 1, ("rdescribe KEY", "DESCRIBE"), NONE),
    Operation("id", 0, 1, ("id KEY", "GET_ID"), NONE),
    Operation("update", 0, 1, ("update KEY DATA", "UPDATE"), NONE),
    Operation("chown", 0, 1, ("chown KEY 4294967295", "CHOWN"), NONE),
    Operation("setperm", 0, 1, ("setperm KEY 3f010000", "SETPERM"), NONE),
    Operation("timeout", 0, 1, ("timeout KEY 1", "SET_TIMEOUT"), NONE),
    Operation("match", 0, 1, ("add user DESC DATA @u", "ADD of a key that is there"), NONE),
    Operation("add", 0, 1, ("add user NEW DATA @u", "ADD of a new key"), ("unlink MADE @u", "UNLINK of it")),
    Operation("search", 0, 1, ("search @u user DESC", "SEARCH"), NONE),
    Operation("request", 0, 1, ("request user DESC", "REQUEST"), NONE),
    Operation("link", 0, 1, ("link SPARE @u", "LINK"), ("unlink SPARE @u", "UNLINK")),
    Operation("apart", 0, 2, ("link OWN OWN-RING", "LINK, links elsewhere"),
        ("unlink OWN OWN-RING", "UNLINK, links elsewhere")),
    Operation("move", 0, 1, ("move KEY @u SMALL", "MOVE"), ("move KEY SMALL @u", "MOVE back")),
    Operation("restrict", 0, 1, ("newring NEW SMALL", "-"), ("restrict MADE", "RESTRICT_KEYRING")),
    Operation("clear", 0, 1, ("add user NEW DATA SMALL", "ADD, links elsewhere"), ("clear SMALL", "CLEAR of one link")),
    Operation("revoke", 0, 1, ("add user NEW DATA SMALL", "-"), ("revoke MADE", "REVOKE")),
    Operation("invalidate", 0, 1, ("add user NEW DATA SMALL", "-"), ("invalidate MADE", "INVALIDATE")),
    Operation("watch", 0, 1, ("watch SPARE 2 1", "WATCH"), ("watch SPARE 2 off", "WATCH -1")),
    Operation("watched", 0, 1, ("update WATCHED DATA", "UPDATE, watched"), ("readq 1 64", "READ_QUEUE")),
    Operation("filter", 0, 1, ("filter 2 1:0:0:ffffffff", "SET_FILTER"), NONE),
    Operation("queue", 0, 1, ("open 16", "OPEN_QUEUE"), ("closeq QUEUE", "CLOSE_QUEUE")),
    Operation("hello", 0, 0, ("hello 5000 5000", "HELLO of a new uid"), ("exit", "EXIT, the last of a uid")),
    Operation("thread", 0, 1, ("thread", "THREAD"), ("exit", "EXIT")),
    Operation("fork", 0, 1, ("fork", "FORK"), ("exit", "-")),
    Operation("exec", 0, 4, ("thread", "-"), ("exec", "EXEC")),
    Operation("join", 0, 3, ("join shared", "JOIN by a name"), NONE),
    Operation("session", 0, 4, ("join", "JOIN without a name"), NONE),
    Operation("leave", 1, 0, ("hello 1000 1000", "HELLO"), ("leave", "LEAVE of one context")),
];

/// All operations. No other function names their table, as the proof of each that does reads all of it.
pub fn operations() -> &'static [Operation] {
    &OPERATIONS
}

impl Operation {
    /// The word on the command line.
    pub fn word(self) -> &'static str {
        self.0
    }

    /// The client that asks.
    pub fn client(self) -> u32 {
        self.1
    }

    /// The context that asks.
    pub fn context(self) -> u32 {
        self.2
    }

    /// The first ask of a round, as a line.
    pub fn first(self) -> &'static str {
        self.3.0
    }

    /// The second ask of a round, as a line, where there is one.
    pub fn second(self) -> &'static str {
        self.4.0
    }

    /// What the asks of a round are counted as.
    pub fn counted(self) -> (&'static str, &'static str) {
        (self.3.1, self.4.1)
    }
}
