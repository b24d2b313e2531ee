ghost use Rattle.std.specs.{Prelude.{◌≡◌, option_copied}, List.{list_all, list_any}};
ghost use Rattle.krs_model.specs.Notes.Filter.{asks_for, filter_of, has_subtype, is_good_entry, is_good_filter, passes};
ghost use Rattle.krs_model.specs.Notes.Filter.{passes_if_any};

use crate::subtype::event_number;
use krs_types::{Errno, FilterEntry, Record};
use std::marker::Model;

/// How many entries a filter has at most: profile, limits.
const MAX_ENTRIES: usize = 16;

/// The bits of info that hold a record's length: uapi linux/watch_queue.h, WATCH_INFO_LENGTH.
const INFO_LENGTH: u32 = 0x7f;

/// The type of a key note: uapi linux/watch_queue.h, WATCH_TYPE_KEY_NOTIFY.
const KEY_NOTIFY: u32 = 1;

/// How many bytes a key note has: uapi linux/watch_queue.h, struct key_notification.
const KEY_NOTE_SIZE: u32 = 16;

/// The lowest bit of info that holds a watch's id: uapi linux/watch_queue.h, WATCH_INFO_ID.
const WATCH_ID: u32 = 0x100;

/// Which records a queue takes in. A contract sees the list of its entries.
#[derive(Drop)]
pub struct Filter {
    entries: Vec<FilterEntry>,
}

impl Model for Filter {
    ghost use Rattle.std.specs.Prelude.{List};
    ghost use Rattle.krs_types.specs.declared.note.FilterEntry.{FilterEntry};

    ghost Value = { List FilterEntry };

    ghost view = { λ f. f.entries.items };
}

impl Filter {
    /// EINVAL where there are none or more than 16, or where one asks for a bit of info outside its mask, or its mask
    /// has a bit of the length.
    pub fn new(entries: Vec<FilterEntry>) -> Result<Filter, Errno>
        ensures { result ≡ filter_of entries.items }
    {
        if !is_good_filter(entries.as_slice()) {
            return Err(Errno::EINVAL);
        }
        Ok(Filter { entries })
    }

    /// Whether a record comes through.
    pub fn passes(&self, note: &Record) -> bool
        ensures { result ≡ passes self.now note.now }
    {
        match *note {
            Record::Key { subtype, watch, .. } => {
                let info = KEY_NOTE_SIZE + WATCH_ID * u32::from(watch);
                any_asks_for(self.entries.as_slice(), event_number(subtype), info)
            }
            Record::Removal { .. } | Record::Loss => true,
        }
    }
}

/// Whether a record comes through to a queue that may have no filter.
pub fn passes(filter: Option<&Filter>, note: &Record) -> bool
    ensures { result ≡ passes_if_any (option_copied filter.entry) note.now }
{
    match filter {
        Some(filter) => filter.passes(note),
        None => true,
    }
}

fn is_good_filter(entries: &[FilterEntry]) -> bool
    ensures { result ≡ is_good_filter entries.now }
{
    !entries.is_empty() && entries.len() <= MAX_ENTRIES && are_good_entries(entries)
}

fn are_good_entries(entries: &[FilterEntry]) -> bool
    ensures { result ≡ list_all is_good_entry entries.now }
{
    entries.iter().all(|entry| is_good_entry(entry))
}

fn is_good_entry(entry: &FilterEntry) -> bool
    ensures { result ≡ is_good_entry entry.now }
{
    entry.info_filter & !entry.info_mask == 0 && entry.info_mask & INFO_LENGTH == 0
}

/// Whether one of the entries asks for key notes of this subtype and info.
fn any_asks_for(entries: &[FilterEntry], subtype: u8, info: u32) -> bool
    ensures { result ≡ list_any (λ entry. asks_for entry 1 subtype info) entries.now }
{
    entries
        .iter()
        .any(|entry| asks_for(entry, KEY_NOTIFY, subtype, info))
}

fn asks_for(entry: &FilterEntry, note_type: u32, subtype: u8, info: u32) -> bool
    ensures { result ≡ asks_for entry.now note_type subtype info }
{
    entry.note_type == note_type
        && has_subtype(entry, subtype)
        && info & entry.info_mask == entry.info_filter
}

fn has_subtype(entry: &FilterEntry, number: u8) -> bool
    ensures { result ≡ has_subtype entry.now number }
{
    let word = entry.subtypes[usize::from(number / 32)];
    (word >> u32::from(number % 32)) % 2 == 1
}
