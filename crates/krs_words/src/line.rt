ghost use Rattle.std.specs.{Prelude.{◌==◌, ◌≡◌, IfOk, map}, List.slice_split};
ghost use Rattle.krs_words.specs.Words.{is_comment, words_of};

use std::alloc::{AllocError, Global};

/// The words of a line. A tab or a carriage return is an ordinary byte.
pub fn words(alloc: Global, line: &[u8]) -> Result<Vec<&[u8]>, AllocError>
    ensures { IfOk result (λ v. map (λ w. w.now) v.items ≡ words_of line.now) }
{
    let mut words = pieces(alloc, line, b' ')?;
    words.retain(|word| !word.is_empty());
    Ok(words)
}

/// What stands before, between and behind the bytes of this value.
pub fn pieces(alloc: Global, text: &[u8], between: u8) -> Result<Vec<&[u8]>, AllocError>
    ensures { IfOk result (λ v. map (λ w. w.now) v.items ≡ slice_split (λ b. b == between) text.now) }
{
    text.split(|byte| *byte == between).collect(alloc)
}

/// Whether a line is skipped whatever its words are.
pub fn is_comment(line: &[u8]) -> bool
    ensures { result ≡ is_comment line.now }
{
    line.starts_with(b"#")
}
