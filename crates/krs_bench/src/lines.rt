//! Asks as lines of the client's commands, in which words in capitals are marks: they stand for numbers and texts.

use krs_commands::{Command, parse};
use krs_types::{Ask, Errno, Fault, Op};
use krs_words::{NoCommand, words};
use std::alloc::{AllocError, Global};

/// From round to round the place moves on by so many, so that near and far ones are asked about.
const STRIDE: u32 = 7_919;

/// The serial of the key at place 0, behind the two keyrings of the uid.
const FIRST: u32 = 5;

/// What DATA stands for.
const DATA: [u8; 32] = [b'x'; 32];

/// What the marks of a line stand for. A place counts the keys of the user keyring, and what is made behind them.
#[derive(Clone, Copy)]
pub struct Marks {
    /// How many keys the user keyring links.
    pub links: u32,
    /// The place of the key that the line may be about.
    pub place: u32,
    /// The key, the context and the queue that a line before has made.
    pub serial: u32,
    pub context: u32,
    pub queue: u32,
}

impl Marks {
    /// Those of a place, where nothing has been made.
    pub fn at(links: u32, place: u32) -> Marks {
        Marks {
            links,
            place,
            serial: 0,
            context: 0,
            queue: 0,
        }
    }

    /// Those of a round, by its number from 0 on, where each round makes one thing more.
    pub fn in_round(&self, number: u32) -> Marks {
        let far = number.saturating_mul(STRIDE);
        Marks {
            links: self.links,
            place: far.checked_rem(self.links).unwrap_or(0),
            serial: self.serial.saturating_add(number),
            context: self.context.saturating_add(number),
            queue: self.queue.saturating_add(number),
        }
    }

    /// Each mark, and the number that it stands for behind a text.
    fn numbers(&self) -> [(&'static str, &'static str, u32); 11] {
        let links = self.links;
        let watched = links.saturating_add(1);
        [
            // The key at the place.
            ("KEY", "", serial_at(self.place)),
            ("DESC", "key-", self.place),
            // A key that the user keyring does not link, nor another of this description.
            ("SPARE", "", serial_at(links)),
            ("NEW", "key-", links),
            // A key that queue 1 watches.
            ("WATCHED", "", serial_at(watched)),
            ("WATCHED-DESC", "key-", watched),
            // A keyring in the user session keyring.
            ("SMALL", "", serial_at(links.saturating_add(2))),
            // A key and a keyring of context 2, whose uid's two keyrings stand before them.
            ("OWN", "", serial_at(links.saturating_add(5))),
            ("OWN-RING", "", serial_at(links.saturating_add(6))),
            // What has been made.
            ("MADE", "", self.serial),
            ("QUEUE", "", self.queue),
        ]
    }

    /// Appends a word, or what it stands for.
    fn append(&self, alloc: Global, text: &mut Vec<u8>, word: &[u8]) -> Result<(), AllocError> {
        if word == b"DATA".as_slice() {
            return text.extend_from_slice(&DATA);
        }
        for (mark, front, number) in self.numbers() {
            if mark.as_bytes() == word {
                let shown = format!(in alloc; "{front}{number}")?;
                return text.extend_from_slice(shown.as_bytes());
            }
        }
        text.extend_from_slice(word)
    }

    /// The line with what its marks stand for.
    fn replaced(&self, alloc: Global, line: &str) -> Result<Vec<u8>, AllocError> {
        let mut text = Vec::new(alloc);
        for word in words(alloc, line.as_bytes())? {
            self.append(alloc, &mut text, word)?;
            text.push(b' ')?;
        }
        Ok(text)
    }
}

/// The serial of the key at a place.
pub fn serial_at(place: u32) -> u32 {
    place.saturating_add(FIRST)
}

/// What a line asks in a context.
pub fn read_ask(alloc: Global, marks: &Marks, context: u32, line: &str) -> Result<Ask, Fault> {
    let text = marks.replaced(alloc, line)?;
    let words = words(alloc, text.as_slice())?;
    match parse(alloc, words.as_slice()) {
        Ok(command) => ask_of(context, command),
        Err(NoCommand::Memory) => Err(Fault::Memory),
        Err(NoCommand::Usage) => Err(Fault::Refused(Errno::EINVAL)),
    }
}

/// What a command asks in a context. Not each command asks.
fn ask_of(context: u32, command: Command) -> Result<Ask, Fault> {
    match command {
        Command::Ask(op) => Ok(Ask { context, op }),
        Command::Rlist(id) => Ok(Ask {
            context,
            op: Op::Read { id },
        }),
        Command::Readq { queue, room } => Ok(Ask {
            context,
            op: Op::ReadQueue { queue, room },
        }),
        Command::Context(_) | Command::Moment(_) => Err(Fault::Refused(Errno::EINVAL)),
    }
}
