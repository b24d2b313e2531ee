//! The text of a script: its lines and their words, the numbers, keys and data that words spell, and the lines that are
//! printed for replies. A contract sees a line and a word as lists of bytes, and a reader and a writer by the bytes
//! that they tell.
#![tactic(auto)]

mod line;
mod lines;
mod no_command;
mod number;
mod output;
mod printing;
mod stop;
mod version;
mod voice;
mod writing;

pub use line::{is_comment, pieces, words};
pub use lines::{has_line_at_hand, read_line};
pub use no_command::NoCommand;
pub use number::{
    data_word, groups_words, hexadecimal_word, key_word, u32_word, u64_word, watch_word,
};
pub use output::Output;
pub use printing::output_line;
pub use stop::Stop;
pub use version::VERSION;
pub use voice::Voice;
pub use writing::{print_output, write_out, write_text};
