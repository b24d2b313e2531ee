ghost use Rattle.std.specs.{Prelude.{◌≡◌, Err, IsSome, map}, Char.{is_ascii_digit, is_ascii_hexdigit}, List.list_all};
ghost use Rattle.krs_words.specs.Number.{data_of, hexadecimal_of, key_of, u32_of, u32s_of, u64_of, watch_id_of};
ghost use Rattle.krs_words.specs.Parsed.{Reads};

use crate::no_command::NoCommand;
use krs_types::{Blob, Groups};
use std::alloc::Global;

/// A decimal number of 64 bits.
pub fn u64_word(word: &[u8]) -> Option<u64>
    ensures { result ≡ u64_of word.now }
{
    if word.is_empty() || !has_digits_alone(word) {
        return None;
    }
    match str::from_utf8(word) {
        Ok(text) => text.parse::<u64>().ok(),
        Err(_) => None,
    }
}

fn has_digits_alone(word: &[u8]) -> bool
    ensures { result ≡ list_all is_ascii_digit word.now }
{
    word.iter().all(|byte| byte.is_ascii_digit())
}

/// A decimal number of 32 bits.
pub fn u32_word(word: &[u8]) -> Option<u32>
    ensures { result ≡ u32_of word.now }
{
    u32::try_from(u64_word(word)?).ok()
}

/// A hexadecimal number of at most eight digits.
pub fn hexadecimal_word(word: &[u8]) -> Option<u32>
    ensures { result ≡ hexadecimal_of word.now }
{
    if word.is_empty() || word.len() > 8 || !has_hexadecimal_digits_alone(word) {
        return None;
    }
    match str::from_utf8(word) {
        Ok(text) => u32::from_str_radix(text, 16).ok(),
        Err(_) => None,
    }
}

fn has_hexadecimal_digits_alone(word: &[u8]) -> bool
    ensures { result ≡ list_all is_ascii_hexdigit word.now }
{
    word.iter().all(|byte| byte.is_ascii_hexdigit())
}

/// The groups that these words name.
pub fn groups_words(alloc: Global, words: &[&[u8]]) -> Result<Groups, NoCommand>
    ensures { Reads result (u32s_of (map (λ w. w.now) words.now)) }
{
    let mut gids = Vec::new(alloc);
    for word in words {
        let Some(gid) = u32_word(word) else {
            return Err(NoCommand::Usage);
        };
        gids.push(gid)?;
    }
    Ok(Groups::new(gids))
}

/// The id of a key or keyring.
pub fn key_word(word: &[u8]) -> Option<i32>
    ensures { result ≡ key_of word.now }
{
    match word {
        b"@t" => Some(-1),
        b"@p" => Some(-2),
        b"@s" => Some(-3),
        b"@u" => Some(-4),
        b"@us" => Some(-5),
        _ => i32::try_from(u32_word(word)?).ok(),
    }
}

/// The id of a watch, or -1 for its end.
pub fn watch_word(word: &[u8]) -> Option<i32>
    ensures { result ≡ watch_id_of word.now }
{
    match word {
        b"off" => Some(-1),
        _ => i32::try_from(u32_word(word)?).ok(),
    }
}

/// The payload that a word spells. It is out of memory only for a word that spells one.
pub fn data_word(alloc: Global, word: &[u8]) -> Result<Blob, NoCommand>
    ensures value { Reads result (data_of word.now) }
    ensures memory { result ≡ Err NoCommand.Memory → IsSome (data_of word.now) }
{
    let Some(digits) = word.strip_prefix(b"hex:") else {
        return Ok(Blob::from_slice(alloc, word)?);
    };
    if !has_hexadecimal_digits_alone(digits) {
        return Err(NoCommand::Usage);
    }
    match hex::decode(alloc, digits) {
        Ok(bytes) => Ok(Blob::new(bytes)),
        Err(hex::FromHexError::OutOfMemory) => Err(NoCommand::Memory),
        Err(_) => Err(NoCommand::Usage),
    }
}
