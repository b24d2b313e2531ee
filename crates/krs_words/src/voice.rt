ghost use Rattle.std.specs.Prelude.{◌≡◌, false, true};
ghost use Rattle.krs_words.specs.Saying.{heard, Says};

use crate::write_text;
use std::io::Write;

/// An output of a program, which knows whether it ever failed to take a text whole.
#[derive(Drop)]
pub struct Voice<W> {
    writer: W,
    has_failed: bool,
}

impl<W: Write> Voice<W> {
    /// One that has not failed.
    pub fn new(writer: W) -> Voice<W>
        ensures { heard W.contents result ≡ (W.contents writer, false) }
    {
        Voice {
            writer,
            has_failed: false,
        }
    }

    /// Says a text. Where it can't be written whole, a beginning of it stands there, and the program goes on.
    pub fn say(&mut self, text: &str)
        ensures { Says (heard W.contents self.old) (heard W.contents self.new) text.now }
    {
        self.tell(text.as_bytes());
    }

    /// Says the bytes of a text.
    pub fn tell(&mut self, text: &[u8])
        ensures { Says (heard W.contents self.old) (heard W.contents self.new) text.now }
    {
        if write_text(&mut self.writer, text).is_err() {
            self.has_failed = true;
        }
    }

    /// There was no memory for a text: nothing of it is said.
    pub fn lack(&mut self)
        ensures { heard W.contents self.new ≡ (W.contents self.old.writer, true) }
    {
        self.has_failed = true;
    }

    /// The writer, with what was said.
    pub fn writer(&self) -> &W
        ensures { heard W.contents self.now ≡ (W.contents result.now, self.now.has_failed) }
    {
        &self.writer
    }
}
