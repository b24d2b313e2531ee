ghost use Rattle.std.specs.Prelude.{◌≡◌, map};
ghost use Rattle.krs_words.specs.Parsed.{Reads};
ghost use Rattle.krs_commands.specs.Entry.{entries_of, entry_in, entry_of};

use krs_types::{FilterEntries, FilterEntry};
use krs_words::{NoCommand, hexadecimal_word, pieces};
use std::alloc::Global;

/// An entry of a filter by its parts, the last of which is its first subtype word: uapi linux/watch_queue.h, struct
/// watch_notification_type_filter.
fn entry_of_parts(parts: &[&[u8]]) -> Option<FilterEntry>
    ensures { result ≡ entry_in (map (λ w. w.now) parts.now) }
{
    let [note_type, info_filter, info_mask, subtypes] = parts else {
        return None;
    };
    Some(FilterEntry {
        note_type: hexadecimal_word(note_type)?,
        info_filter: hexadecimal_word(info_filter)?,
        info_mask: hexadecimal_word(info_mask)?,
        subtypes: [hexadecimal_word(subtypes)?, 0, 0, 0, 0, 0, 0, 0],
    })
}

fn entry_word(alloc: Global, word: &[u8]) -> Result<FilterEntry, NoCommand>
    ensures { Reads result (entry_of word.now) }
{
    let parts = pieces(alloc, word, b':')?;
    entry_of_parts(parts.as_slice()).ok_or(NoCommand::Usage)
}

/// The entries of a filter that these words name.
pub fn entries_words(alloc: Global, words: &[&[u8]]) -> Result<FilterEntries, NoCommand>
    ensures { Reads result (entries_of (map (λ w. w.now) words.now)) }
{
    let mut entries = Vec::new(alloc);
    for word in words {
        match entry_word(alloc, word) {
            Ok(entry) => entries.push(entry)?,
            Err(cause) => return Err(cause),
        }
    }
    Ok(FilterEntries::new(entries))
}
