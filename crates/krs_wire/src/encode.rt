ghost use Rattle.std.specs.Prelude.{[], ◌++◌, ◌<◌, ◌^◌, ◌∷◌, ◌≡◌, ◌≤◌, IfErr, IfOk, length, None, OnOk, Some};
ghost use Rattle.krs_wire.specs.{Bodies.FitsOp, Encoding.{ask_frame, ask_text, framed, IsTooLong}};
ghost use Rattle.krs_wire.specs.{Frame.{Frames, rest}, Tag.{FitsTag, version_of}};

use crate::WireFault;
use crate::bodies::put_body;
use crate::framed::{MAX_LENGTH, TAGGED, UNTAGGED};
use crate::lengths::ask_length;
use crate::put::{put_tag, put_u16, put_u32};
use krs_types::Ask;
use std::alloc::Global;

/// The version of a frame with this tag, or with none.
fn version(tag: Option<u64>) -> u16
    ensures { result ≡ version_of tag }
{
    match tag {
        None => UNTAGGED,
        Some(_) => TAGGED,
    }
}

/// What stands behind the length.
fn put_ask(out: &mut Vec<u8>, tag: Option<u64>, ask: &Ask) -> Result<(), WireFault>
    ensures ok { OnOk result (out.new.items ≡ out.old.items ++ ask_text tag ask.now) }
    ensures tagged { OnOk result (FitsTag tag) }
    ensures context { OnOk result (ask.now.context < 256 ^ 4) }
    ensures fits { OnOk result (FitsOp ask.now.op) }
    ensures long { IfErr result (IsTooLong 65537 (ask_text tag ask.now)) }
{
    put_u16(out, version(tag))?;
    put_u16(out, ask.op.number())?;
    put_u32(out, ask.context)?;
    put_tag(out, tag)?;
    put_body(out, &ask.op)
}

/// The frame of an ask, with a tag or with none: BadLength where its length would be above 65536, whatever memory there
/// is.
fn encode(alloc: Global, ask: &Ask, tag: Option<u64>) -> Result<Vec<u8>, WireFault>
    ensures frame { IfOk result (λ v. v.items ≡ ask_frame tag ask.now) }
    ensures cut { IfOk result (λ v. Frames v.items (framed tag ask.now ∷ []) (rest [])) }
    ensures fits { OnOk result (length (ask_text tag ask.now) ≤ 65536) }
    ensures long { IfErr result (IsTooLong 65537 (ask_text tag ask.now)) }
    ensures refused { 65536 < length (ask_text tag ask.now) → result ≡ Err WireFault.BadLength }
{
    let length = ask_length(ask, tag);
    if length > MAX_LENGTH {
        return Err(WireFault::BadLength);
    }
    // room for all of it: a vector that grows leaves its old block as it was
    let mut out = Vec::with_capacity(alloc, length + 4)?;
    put_u32(&mut out, length as u32)?;
    put_ask(&mut out, tag, ask)?;
    Ok(out)
}

/// The frame of an ask in version 1: BadLength where its length would be above 65536, whatever memory there is.
/// No program but the bench calls it; tests do.
pub fn encode_ask(alloc: Global, ask: &Ask) -> Result<Vec<u8>, WireFault>
    ensures frame { IfOk result (λ v. v.items ≡ ask_frame None ask.now) }
    ensures cut { IfOk result (λ v. Frames v.items (framed None ask.now ∷ []) (rest [])) }
    ensures fits { OnOk result (length (ask_text None ask.now) ≤ 65536) }
    ensures long { IfErr result (IsTooLong 65537 (ask_text None ask.now)) }
    ensures refused { 65536 < length (ask_text None ask.now) → result ≡ Err WireFault.BadLength }
{
    encode(alloc, ask, None)
}

/// The frame of an ask in version 2, with its tag: BadLength where its length would be above 65536, whatever memory
/// there is.
pub fn encode_ask2(alloc: Global, ask: &Ask, tag: u64) -> Result<Vec<u8>, WireFault>
    ensures frame { IfOk result (λ v. v.items ≡ ask_frame (Some tag) ask.now) }
    ensures cut { IfOk result (λ v. Frames v.items (framed (Some tag) ask.now ∷ []) (rest [])) }
    ensures fits { OnOk result (length (ask_text (Some tag) ask.now) ≤ 65536) }
    ensures long { IfErr result (IsTooLong 65537 (ask_text (Some tag) ask.now)) }
    ensures refused { 65536 < length (ask_text (Some tag) ask.now) → result ≡ Err WireFault.BadLength }
{
    encode(alloc, ask, Some(tag))
}
