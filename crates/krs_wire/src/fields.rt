// The fields of frames, each read from the front of the bytes, which the reader answers with what follows it.
ghost use Rattle.std.specs.Prelude.{◌*◌, ◌<◌, ◌==◌, ◌≡◌, Err, IfErr, if◌then◌else◌, length, option_map};
ghost use Rattle.std.specs.Int.{w16, w32};
ghost use Rattle.krs_wire.specs.Bodies.{blob_field, caller_field, entries_field, entry_field, groups_field, id_field};
ghost use Rattle.krs_wire.specs.{Bodies.text_field, Faulting.{GivesRead, or_bad_body}};
ghost use Rattle.krs_wire.specs.{Field.{flag, many_read, number, repeated}, Tag.tag_field};

use crate::WireFault;
use byteorder::{ByteOrder, LittleEndian};
use krs_types::{Blob, Caller, FilterEntries, FilterEntry, Groups, TypeName};
use std::alloc::Global;

pub(crate) fn u16_at(bytes: &[u8]) -> Result<(u16, &[u8]), WireFault>
    ensures { GivesRead (λ x. (x.0, x.1.now)) result (or_bad_body ((number w16).read bytes.now)) }
{
    if bytes.len() < 2 {
        return Err(WireFault::BadBody);
    }
    let (front, rest) = bytes.split_at(2);
    Ok((LittleEndian::read_u16(front), rest))
}

pub(crate) fn u32_at(bytes: &[u8]) -> Result<(u32, &[u8]), WireFault>
    ensures read { GivesRead (λ x. (x.0, x.1.now)) result (or_bad_body ((number w32).read bytes.now)) }
    ensures fault { IfErr result (λ fault. fault ≡ WireFault.BadBody) }
{
    if bytes.len() < 4 {
        return Err(WireFault::BadBody);
    }
    let (front, rest) = bytes.split_at(4);
    Ok((LittleEndian::read_u32(front), rest))
}

/// The tag where frames have one. None where the bytes are too short for it.
pub(crate) fn tag_at(is_tagged: bool, bytes: &[u8]) -> Option<(Option<u64>, &[u8])>
    ensures { option_map (λ x. (x.0, x.1.now)) result ≡ (tag_field is_tagged).read bytes.now }
{
    if !is_tagged {
        return Some((None, bytes));
    }
    if bytes.len() < 8 {
        return None;
    }
    let (front, rest) = bytes.split_at(8);
    Some((Some(LittleEndian::read_u64(front)), rest))
}

pub(crate) fn id_at(bytes: &[u8]) -> Result<(i32, &[u8]), WireFault>
    ensures { GivesRead (λ x. (x.0, x.1.now)) result (or_bad_body (id_field.read bytes.now)) }
{
    let (number, rest) = u32_at(bytes)?;
    Ok((number.cast_signed(), rest))
}

pub(crate) fn flag_at(bytes: &[u8]) -> Result<(bool, &[u8]), WireFault>
    ensures { GivesRead (λ x. (x.0, x.1.now)) result (or_bad_body (flag.read bytes.now)) }
{
    match bytes {
        [0, rest @ ..] => Ok((false, rest)),
        [1, rest @ ..] => Ok((true, rest)),
        _ => Err(WireFault::BadBody),
    }
}

/// A text, where it stands.
fn text_in(bytes: &[u8]) -> Result<(&[u8], &[u8]), WireFault>
    ensures { GivesRead (λ x. (x.0.now, x.1.now)) result (or_bad_body (text_field.read bytes.now)) }
{
    let (len, rest) = u16_at(bytes)?;
    let len = len as usize;
    if rest.len() < len {
        return Err(WireFault::BadBody);
    }
    Ok(rest.split_at(len))
}

pub(crate) fn text_at(alloc: Global, bytes: &[u8]) -> Result<(Blob, &[u8]), WireFault>
    ensures { GivesRead (λ x. (x.0, x.1.now)) result (or_bad_body (text_field.read bytes.now)) }
{
    let (text, rest) = text_in(bytes)?;
    Ok((Blob::from_slice(alloc, text)?, rest))
}

/// The name of a type.
pub(crate) fn type_name_at(alloc: Global, bytes: &[u8]) -> Result<(TypeName, &[u8]), WireFault>
    ensures { GivesRead (λ x. (x.0, x.1.now)) result (or_bad_body (text_field.read bytes.now)) }
{
    let (name, rest) = text_in(bytes)?;
    Ok((TypeName::from_slice(alloc, name)?, rest))
}

pub(crate) fn blob_at(alloc: Global, bytes: &[u8]) -> Result<(Blob, &[u8]), WireFault>
    ensures { GivesRead (λ x. (x.0, x.1.now)) result (or_bad_body (blob_field.read bytes.now)) }
{
    let (len, rest) = u32_at(bytes)?;
    let len = len as usize;
    if rest.len() < len {
        return Err(WireFault::BadBody);
    }
    let (blob, rest) = rest.split_at(len);
    Ok((Blob::from_slice(alloc, blob)?, rest))
}

/// So many numbers. A count of more than there are bytes for is refused before any memory is taken.
fn numbers_at(alloc: Global, count: u32, bytes: &[u8]) -> Result<(Vec<u32>, &[u8]), WireFault>
    ensures read { GivesRead (λ x. (x.0.items, x.1.now)) result
        (or_bad_body (many_read (number w32) count bytes.now)) }
    ensures refused { length bytes.now < 4 * count → result ≡ Err WireFault.BadBody }
{
    if bytes.len() < 4 * count as usize {
        return Err(WireFault::BadBody);
    }
    let mut numbers = Vec::new(alloc);
    let mut rest = bytes;
    for _ in 0..count {
        match u32_at(rest) {
            Err(fault) => return Err(fault),
            Ok((number, after)) => {
                numbers.push(number)?;
                rest = after;
            }
        }
    }
    Ok((numbers, rest))
}

fn groups_at(alloc: Global, bytes: &[u8]) -> Result<(Groups, &[u8]), WireFault>
    ensures { GivesRead (λ x. (x.0, x.1.now)) result (or_bad_body (groups_field.read bytes.now)) }
{
    let (count, rest) = u32_at(bytes)?;
    let (numbers, rest) = numbers_at(alloc, count, rest)?;
    Ok((Groups::new(numbers), rest))
}

pub(crate) fn caller_at(alloc: Global, bytes: &[u8]) -> Result<(Caller, &[u8]), WireFault>
    ensures { GivesRead (λ x. (x.0, x.1.now)) result (or_bad_body (caller_field.read bytes.now)) }
{
    let (uid, rest) = u32_at(bytes)?;
    let (gid, rest) = u32_at(rest)?;
    let (groups, rest) = groups_at(alloc, rest)?;
    Ok((Caller { uid, gid, groups }, rest))
}

/// The subtype words of a filter entry.
fn subtypes_at(bytes: &[u8]) -> Result<([u32; 8], &[u8]), WireFault>
    ensures { GivesRead (λ x. (x.0, x.1.now)) result (or_bad_body ((repeated 8 (number w32)).read bytes.now)) }
{
    let mut words = [0; 8];
    let mut rest = bytes;
    for place in 0..8 {
        match u32_at(rest) {
            Err(fault) => return Err(fault),
            Ok((word, after)) => {
                words[place] = word;
                rest = after;
            }
        }
    }
    Ok((words, rest))
}

fn entry_at(bytes: &[u8]) -> Result<(FilterEntry, &[u8]), WireFault>
    ensures { GivesRead (λ x. (x.0, x.1.now)) result (or_bad_body (entry_field.read bytes.now)) }
{
    let (note_type, rest) = u32_at(bytes)?;
    let (info_filter, rest) = u32_at(rest)?;
    let (info_mask, rest) = u32_at(rest)?;
    let (subtypes, rest) = subtypes_at(rest)?;
    let entry = FilterEntry {
        note_type,
        info_filter,
        info_mask,
        subtypes,
    };
    Ok((entry, rest))
}

/// So many entries. A count of more than there are bytes for is refused before any memory is taken.
fn so_many_entries_at(
    alloc: Global,
    count: u32,
    bytes: &[u8],
) -> Result<(Vec<FilterEntry>, &[u8]), WireFault>
    ensures read { GivesRead (λ x. (x.0.items, x.1.now)) result
        (or_bad_body (many_read entry_field count bytes.now)) }
    ensures refused { length bytes.now < 44 * count → result ≡ Err WireFault.BadBody }
{
    if bytes.len() < 44 * count as usize {
        return Err(WireFault::BadBody);
    }
    let mut entries = Vec::new(alloc);
    let mut rest = bytes;
    for _ in 0..count {
        match entry_at(rest) {
            Err(fault) => return Err(fault),
            Ok((entry, after)) => {
                entries.push(entry)?;
                rest = after;
            }
        }
    }
    Ok((entries, rest))
}

pub(crate) fn entries_at(alloc: Global, bytes: &[u8]) -> Result<(FilterEntries, &[u8]), WireFault>
    ensures { GivesRead (λ x. (x.0, x.1.now)) result (or_bad_body (entries_field.read bytes.now)) }
{
    let (count, rest) = u32_at(bytes)?;
    let (entries, rest) = so_many_entries_at(alloc, count, rest)?;
    Ok((FilterEntries::new(entries), rest))
}

/// The value where no bytes are left, else BadBody.
pub(crate) fn ended<T: Drop>(value: T, rest: &[u8]) -> Result<T, WireFault>
    ensures { result ≡ (if length rest.now == 0 then Ok value else Err WireFault.BadBody) }
{
    if rest.is_empty() {
        Ok(value)
    } else {
        Err(WireFault::BadBody)
    }
}
