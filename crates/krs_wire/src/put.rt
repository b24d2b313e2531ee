// The fields of frames, each put behind the bytes before it.
ghost use Rattle.std.specs.Prelude.{◌++◌, ◌<◌, ◌^◌, ◌≡◌, ◌≤◌, flat_map, IfErr, length, OnOk};
ghost use Rattle.std.specs.{Int.{to_le_bytes, w16, w32}, List.AllByRecursion};
ghost use Rattle.krs_wire.specs.Bodies.{blob_field, caller_field, entries_field, entry_field, groups_field, id_field};
ghost use Rattle.krs_wire.specs.{Bodies.text_field, Encoding.IsTooLong, Field.flag, Tag.{FitsTag, tag_text}};

use crate::WireFault;
use crate::framed::MAX_LENGTH;
use byteorder::{ByteOrder, LittleEndian};
use krs_types::{Blob, Caller, FilterEntries, FilterEntry, Groups};

pub(crate) fn put_u16(out: &mut Vec<u8>, number: u16) -> Result<(), WireFault>
    ensures ok { OnOk result (out.new.items ≡ out.old.items ++ to_le_bytes w16 number) }
    ensures memory { IfErr result (λ fault. fault ≡ WireFault.Memory) }
{
    let mut bytes = [0; 2];
    LittleEndian::write_u16(&mut bytes, number);
    out.extend_from_slice(&bytes)?;
    Ok(())
}

pub(crate) fn put_u32(out: &mut Vec<u8>, number: u32) -> Result<(), WireFault>
    ensures ok { OnOk result (out.new.items ≡ out.old.items ++ to_le_bytes w32 number) }
    ensures memory { IfErr result (λ fault. fault ≡ WireFault.Memory) }
{
    let mut bytes = [0; 4];
    LittleEndian::write_u32(&mut bytes, number);
    out.extend_from_slice(&bytes)?;
    Ok(())
}

/// The tag, where there is one.
pub(crate) fn put_tag(out: &mut Vec<u8>, tag: Option<u64>) -> Result<(), WireFault>
    ensures ok { OnOk result (out.new.items ≡ out.old.items ++ tag_text tag) }
    ensures fits { FitsTag tag }
    ensures memory { IfErr result (λ fault. fault ≡ WireFault.Memory) }
{
    match tag {
        None => Ok(()),
        Some(tag) => {
            let mut bytes = [0; 8];
            LittleEndian::write_u64(&mut bytes, tag);
            out.extend_from_slice(&bytes)?;
            Ok(())
        }
    }
}

pub(crate) fn put_id(out: &mut Vec<u8>, id: i32) -> Result<(), WireFault>
    ensures ok { OnOk result (out.new.items ≡ out.old.items ++ id_field.encode id) }
    ensures memory { IfErr result (λ fault. fault ≡ WireFault.Memory) }
{
    put_u32(out, id.cast_unsigned())
}

pub(crate) fn put_flag(out: &mut Vec<u8>, is_set: bool) -> Result<(), WireFault>
    ensures ok { OnOk result (out.new.items ≡ out.old.items ++ flag.encode is_set) }
    ensures memory { IfErr result (λ fault. fault ≡ WireFault.Memory) }
{
    out.extend_from_slice(&[u8::from(is_set)])?;
    Ok(())
}

pub(crate) fn put_text(out: &mut Vec<u8>, text: &[u8]) -> Result<(), WireFault>
    ensures ok { OnOk result (out.new.items ≡ out.old.items ++ text_field.encode text.now) }
    ensures fits { OnOk result (length text.now < 65536) }
    ensures long { IfErr result (IsTooLong 65536 text.now) }
    ensures refused { 65535 < length text.now → result ≡ Err WireFault.BadLength }
{
    if text.len() > 65535 {
        return Err(WireFault::BadLength);
    }
    put_u16(out, text.len() as u16)?;
    out.extend_from_slice(text)?;
    Ok(())
}

pub(crate) fn put_blob(out: &mut Vec<u8>, blob: &Blob) -> Result<(), WireFault>
    ensures ok { OnOk result (out.new.items ≡ out.old.items ++ blob_field.encode blob.now) }
    ensures fits { OnOk result (length blob.now ≤ 65536) }
    ensures long { IfErr result (IsTooLong 65537 blob.now) }
    ensures refused { 65536 < length blob.now → result ≡ Err WireFault.BadLength }
{
    let bytes = blob.as_slice();
    if bytes.len() > MAX_LENGTH {
        return Err(WireFault::BadLength);
    }
    put_u32(out, bytes.len() as u32)?;
    out.extend_from_slice(bytes)?;
    Ok(())
}

/// The numbers, without their count.
fn put_numbers(out: &mut Vec<u8>, numbers: &[u32]) -> Result<(), WireFault>
    ensures ok { OnOk result (out.new.items ≡
        out.old.items ++ flat_map (λ n. to_le_bytes w32 n) numbers.now) }
    ensures fits { OnOk result (AllByRecursion (λ n. n < 256 ^ 4) numbers.now) }
    ensures memory { IfErr result (λ fault. fault ≡ WireFault.Memory) }
{
    for number in numbers {
        put_u32(out, *number)?;
    }
    Ok(())
}

fn put_groups(out: &mut Vec<u8>, groups: &Groups) -> Result<(), WireFault>
    ensures ok { OnOk result (out.new.items ≡ out.old.items ++ groups_field.encode groups.now) }
    ensures fits { OnOk result (groups_field.Fits groups.now) }
    ensures long { IfErr result (IsTooLong 65536 (groups_field.encode groups.now)) }
    ensures refused { 65536 < length groups.now → result ≡ Err WireFault.BadLength }
{
    let numbers = groups.as_slice();
    if numbers.len() > MAX_LENGTH {
        return Err(WireFault::BadLength);
    }
    put_u32(out, numbers.len() as u32)?;
    put_numbers(out, numbers)
}

pub(crate) fn put_caller(out: &mut Vec<u8>, caller: &Caller) -> Result<(), WireFault>
    ensures ok { OnOk result (out.new.items ≡ out.old.items ++ caller_field.encode caller.now) }
    ensures fits { OnOk result (caller_field.Fits caller.now) }
    ensures long { IfErr result (IsTooLong 65536 (caller_field.encode caller.now)) }
{
    put_u32(out, caller.uid)?;
    put_u32(out, caller.gid)?;
    put_groups(out, &caller.groups)
}

fn put_entry(out: &mut Vec<u8>, line: &FilterEntry) -> Result<(), WireFault>
    ensures ok { OnOk result (out.new.items ≡ out.old.items ++ entry_field.encode line.now) }
    ensures fits { OnOk result (entry_field.Fits line.now) }
    ensures memory { IfErr result (λ fault. fault ≡ WireFault.Memory) }
{
    put_u32(out, line.note_type)?;
    put_u32(out, line.info_filter)?;
    put_u32(out, line.info_mask)?;
    put_numbers(out, &line.subtypes)
}

pub(crate) fn put_entries(out: &mut Vec<u8>, entries: &FilterEntries) -> Result<(), WireFault>
    ensures ok { OnOk result (out.new.items ≡ out.old.items ++ entries_field.encode entries.now) }
    ensures fits { OnOk result (entries_field.Fits entries.now) }
    ensures long { IfErr result (IsTooLong 65536 (entries_field.encode entries.now)) }
    ensures refused { 65536 < length entries.now → result ≡ Err WireFault.BadLength }
{
    let lines = entries.as_slice();
    if lines.len() > MAX_LENGTH {
        return Err(WireFault::BadLength);
    }
    put_u32(out, lines.len() as u32)?;
    for line in lines {
        put_entry(out, line)?;
    }
    Ok(())
}
