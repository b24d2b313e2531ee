//! The first words of commands.

ghost use Rattle.std.specs.{Prelude.{◌≡◌, bytes_eq, is_some}, List.list_any};
ghost use Rattle.krs_commands.specs.Command.{row_of};

use crate::commands;

/// The first words alone.
macro_rules! first_words {
    (; $($group:ident { $($name:literal $usage:literal $prints:literal $how:ident $reader:path;)* })*) => {
        [$($($name),*),*]
    };
}

const FIRST_WORDS: [&str; 34] = commands!(first_words);

/// Whether a command has this first word.
pub fn is_command(word: &[u8]) -> bool
    ensures { result ≡ is_some (row_of word.now) }
{
    is_among(&FIRST_WORDS, word)
}

/// Whether a word is among these.
fn is_among(known: &[&str], word: &[u8]) -> bool
    ensures { result ≡ list_any (λ k. bytes_eq word.now k.now) known.now }
{
    known.iter().any(|k| word == k.as_bytes())
}
