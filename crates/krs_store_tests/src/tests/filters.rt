use krs_notes::{Filter, FilterEntry, KeyEvent, Record, passes};
use krs_types::Errno;
use std::alloc::{AllocError, Global};
use std::test::Fail;

/// Type, info filter, mask and the first word of the subtypes of an entry.
type Entry = (u32, u32, u32, u32);

/// The entries of a filter, and whether this note of watch 9 passes it.
#[rattlefmt::skip]
const FILTERS: [(&[Entry], KeyEvent, Result<bool, Errno>); 23] = [
    // How many entries.
    (&[], KeyEvent::Updated, Err(Errno::EINVAL)),
    // Info filters and masks that an entry may have, or may not.
    (&[(1, 0, 0, 2)], KeyEvent::Updated, Ok(true)),
    (&[(1, 0x100, 0, 2)], KeyEvent::Updated, Err(Errno::EINVAL)),
    (&[(1, 0x100, 0x200, 2)], KeyEvent::Updated, Err(Errno::EINVAL)),
    (&[(1, 0x900, 0xff00, 2)], KeyEvent::Updated, Ok(true)),
    (&[(1, 0, 0xffff_ff80, 2)], KeyEvent::Updated, Ok(false)),
    (&[(1, 0, 0x40, 2)], KeyEvent::Updated, Err(Errno::EINVAL)),
    (&[(1, 0, 1, 2)], KeyEvent::Updated, Err(Errno::EINVAL)),
    (&[(1, 0x8000_0000, 0x8000_0000, 2)], KeyEvent::Updated, Ok(false)),
    (&[(0xffff_ffff, 0, 0, 2)], KeyEvent::Updated, Ok(false)),
    // Subtypes and types that it asks for, or does not.
    (&[(1, 0, 0, 0xffff_ffff)], KeyEvent::Updated, Ok(true)),
    (&[(1, 0, 0, 0b1000_0000)], KeyEvent::Updated, Ok(false)),
    (&[(1, 0, 0, 0xffff_fffd)], KeyEvent::Updated, Ok(false)),
    (&[(0, 0, 0, 2)], KeyEvent::Updated, Ok(false)),
    (&[(2, 0, 0, 2)], KeyEvent::Updated, Ok(false)),
    (&[(0x100_0001, 0, 0, 2)], KeyEvent::Updated, Ok(false)),
    (&[(0x8000_0001, 0, 0, 2)], KeyEvent::Updated, Ok(false)),
    // Info that it asks for, or does not.
    (&[(1, 0x800, 0xff00, 2)], KeyEvent::Updated, Ok(false)),
    (&[(1, 0x100, 0x100, 2)], KeyEvent::Updated, Ok(true)),
    (&[(1, 0, 0x800, 2)], KeyEvent::Updated, Ok(false)),
    // One of two entries is enough.
    (&[(1, 0, 0, 2), (1, 0, 0, 0b1000_0000)], KeyEvent::Updated, Ok(true)),
    (&[(1, 0, 0, 2), (1, 0, 0, 0b1000_0000)], KeyEvent::Setattr, Ok(true)),
    (&[(1, 0, 0, 2), (1, 0, 0, 0b1000_0000)], KeyEvent::Linked, Ok(false)),
];

/// The entries of a row.
fn entries_of(alloc: Global, rows: &[Entry]) -> Result<Vec<FilterEntry>, AllocError> {
    let mut entries = Vec::new(alloc);
    for (note_type, info_filter, info_mask, subtypes) in rows {
        entries.push(FilterEntry {
            note_type: *note_type,
            info_filter: *info_filter,
            info_mask: *info_mask,
            subtypes: [*subtypes, 0, 0, 0, 0, 0, 0, 0],
        })?;
    }
    Ok(entries)
}

/// Whether a note of watch 9 passes the filter that was made.
fn passed_by(made: &Result<Filter, Errno>, subtype: KeyEvent) -> Result<bool, Errno> {
    let note = Record::Key {
        subtype,
        watch: 9,
        key: 5,
        aux: 0,
    };
    match made {
        Ok(filter) => Ok(passes(Some(filter), &note)),
        Err(errno) => Err(*errno),
    }
}

/// Whether a removal and a loss pass the filter that was made.
fn lets_others_pass(made: &Result<Filter, Errno>) -> bool {
    match made {
        Ok(filter) => {
            filter.passes(&Record::Removal { watch: 9, id: 5 }) && filter.passes(&Record::Loss)
        }
        Err(_) => true,
    }
}

#[test]
fn a_note_passes_what_asks_for_it(rt: HostRuntime) -> Result<(), Fail> {
    for (row, subtype, want) in &FILTERS {
        let made = Filter::new(entries_of(rt.alloc(), row)?);
        assert!(rt; passed_by(&made, *subtype) == *want, "{row:?}");
        assert!(rt; lets_others_pass(&made), "{row:?}");
    }
    Ok(())
}
