//! How commands are used, and which word of one isn't as it is used.
ghost use Rattle.std.specs.Prelude.{[], ◌≡◌, get_or, IfSome, map, None, true};
ghost use Rattle.krs_commands.specs.Command.{has_payload};

use crate::commands;
use krs_words::{hexadecimal_word, key_word, u32_word, u64_word, watch_word};

/// The first words, each with the words behind it in the width that help has for them.
macro_rules! usages {
    (; $($group:ident { $($name:literal $usage:literal $prints:literal $how:ident $reader:path;)* })*) => {
        [$($(($name, $usage)),*),*]
    };
}

const USAGES: [(&str, &str); 34] = commands!(usages);

/// A word that isn't what stands at its place in the usage of its command.
#[derive(Clone, Copy)]
pub struct Misfit<'a> {
    /// None where a word of its command is a payload: whichever it is, it may be told to nobody.
    pub word: Option<&'a [u8]>,
    /// What stands at its place, such as `KEY`.
    pub place: &'static [u8],
}

impl Misfit<'_> {
    /// What such a place takes.
    pub fn wanted(&self) -> &'static str {
        match self.place {
            b"DATA" => "pairs of hexadecimal digits behind hex:",
            b"MASK" => "1 to 8 hexadecimal digits, without 0x",
            b"ID" => "a decimal number, or off",
            b"ENTRY" => "four hexadecimal numbers with colons between",
            b"KEY" | b"RING" | b"FROM" | b"TO" => "a serial in decimal, or @t, @p, @s, @u or @us",
            b"create" | b"excl" => "this word, or none",
            _ => "a decimal number",
        }
    }
}

/// The words behind a first word, as help has them; nothing where no command has it.
pub fn usage_of(word: &[u8]) -> &'static [u8] {
    for (name, usage) in &USAGES {
        if word == name.as_bytes() {
            return usage.as_bytes().trim_ascii_end();
        }
    }
    b""
}

/// The first of the words behind a first word that isn't what stands at its place. Where there are too few or too many,
/// none is.
pub fn first_misfit<'a>(words: &[&'a [u8]]) -> Option<Misfit<'a>>
    ensures unquoted { has_payload (get_or (map (λ word. word.now) words.now) 0 []) ≡ true
        → IfSome result (λ found. found.word ≡ None) }
{
    let [first, behind @ ..] = words else {
        return None;
    };
    let found = misfit_behind(first, behind)?;
    if has_payload(first) {
        return Some(Misfit {
            word: None,
            ..found
        });
    }
    Some(found)
}

/// Whether a word of such a command is a payload.
fn has_payload(first: &[u8]) -> bool
    ensures { result ≡ has_payload first.now }
{
    first == b"add".as_slice() || first == b"update".as_slice()
}

/// The same of the words behind a first word.
fn misfit_behind<'a>(first: &[u8], behind: &[&'a [u8]]) -> Option<Misfit<'a>> {
    let mut left = behind;
    let mut place: &'static [u8] = b"";
    for form in usage_of(first).split(|byte| *byte == b' ') {
        let form = bare(form);
        if form == b"..".as_slice() {
            return misfit_among(left, place);
        }
        if !form.is_empty() {
            place = form;
            let [word, more @ ..] = left else {
                return None;
            };
            if !fits(place, word) {
                return Some(Misfit {
                    word: Some(word),
                    place,
                });
            }
            left = more;
        }
    }
    None
}

/// The first of these words that isn't what this place takes.
fn misfit_among<'a>(words: &[&'a [u8]], place: &'static [u8]) -> Option<Misfit<'a>> {
    for word in words {
        if !fits(place, word) {
            return Some(Misfit {
                word: Some(word),
                place,
            });
        }
    }
    None
}

/// What stands at a place, without the brackets of one that may be left out.
fn bare(form: &'static [u8]) -> &'static [u8] {
    let form = form.strip_prefix(b"[").unwrap_or(form);
    form.strip_suffix(b"]").unwrap_or(form)
}

/// Whether a word is what this place takes.
fn fits(place: &[u8], word: &[u8]) -> bool {
    match place {
        b"KEY" | b"RING" | b"FROM" | b"TO" => key_word(word).is_some(),
        b"UID" | b"GID" | b"GROUP" | b"SECONDS" | b"CAPACITY" | b"QUEUE" | b"ROOM" => {
            u32_word(word).is_some()
        }
        b"N" => u64_word(word).is_some(),
        b"MASK" => hexadecimal_word(word).is_some(),
        b"ID" => watch_word(word).is_some(),
        b"DATA" => is_data(word),
        b"ENTRY" => is_entry(word),
        b"create" | b"excl" => word == place,
        _ => true,
    }
}

/// Whether a word spells a payload.
fn is_data(word: &[u8]) -> bool {
    match word.strip_prefix(b"hex:") {
        Some(digits) => digits.len() % 2 == 0 && digits.iter().all(|byte| byte.is_ascii_hexdigit()),
        None => true,
    }
}

/// Whether a word spells an entry of a filter.
fn is_entry(word: &[u8]) -> bool {
    let mut count = 0u32;
    for part in word.split(|byte| *byte == b':') {
        if hexadecimal_word(part).is_none() {
            return false;
        }
        count = count.saturating_add(1);
    }
    count == 4
}
