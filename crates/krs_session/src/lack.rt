// What a session lacks of its reserve of memory.
ghost use Rattle.std.specs.Prelude.{◌≡◌};

use crate::Keeper;
use std::marker::Model;

/// What a session has told its desk to be lacking, in bytes. It isn't `Drop`, so a session can't forget it, and has to
/// end it.
pub(crate) struct Lack {
    told: u64,
}

impl Model for Lack {
    ghost use Rattle.std.specs.Prelude.{ℕ};

    ghost Value = { ℕ };

    ghost view = { λ l. l.told };
}

impl Lack {
    /// A session begins: it has told of nothing.
    pub(crate) fn new() -> Lack
        ensures { result ≡ 0 }
    {
        Lack { told: 0 }
    }

    /// So much is lacking, in place of what was told last.
    pub(crate) fn tell<S, H, D: Keeper<S, H>>(&mut self, desk: &D, lack: u64)
        ensures { self.new ≡ lack }
    {
        desk.tell_lack(&mut self.told, lack);
    }

    // The one way to let go of it: nothing is lacking any more.
    fn let_go(self)
        requires { self ≡ 0 }
    {
        let Lack { told: _ } = self;
    }

    /// The session ends, and lacks nothing any more.
    pub(crate) fn end<S, H, D: Keeper<S, H>>(self, desk: &D) {
        let mut lack = self;
        lack.tell::<S, H, D>(desk, 0);
        lack.let_go();
    }
}
