// Asks read from their frames: the fields of a row, and the frame at the front of a stream.
ghost use Rattle.std.specs.Prelude.{◌-◌, ◌<◌, ◌≡◌, drop, IfOk, IfSome, length, option_map};
ghost use Rattle.krs_wire.specs.{Faulting.GivesRead, Frame.{framed_of, front_of, op_of, said_by}, Tag.tag_field};

use crate::fields::{tag_at, u16_at, u32_at};
use crate::forms::{
    BlobForm, CallerForm, EntriesForm, FlagForm, IdForm, NameForm, NumberForm, TextForm, row_at,
};
use crate::framed::{MAX_LENGTH, MIN_LENGTH, TAGGED, UNTAGGED};
use crate::{Framed, WireFault};
use byteorder::{ByteOrder, LittleEndian};
use krs_types::{Ask, Op, asks};
use std::alloc::Global;

macro_rules! readings {
    ($which:expr, $alloc:expr, $body:expr; $($ask:ident $number:literal $shape:ident $marks:tt $fields:tt;)*) => {
        match $which {
            $($number => readings!(@row $alloc, $body, $ask $fields),)*
            _ => Err(WireFault::BadOp),
        }
    };
    (@row $alloc:expr, $body:expr, $ask:ident {$($field:ident: $form:ident),*}) => {
        row_at::<readings!(@forms $($form),*), _>($alloc, $body, |readings!(@names $($field),*)|
            Op::$ask { $($field),* })
    };
    (@row $alloc:expr, $body:expr, $ask:ident ($field:ident: $form:ident)) => {
        row_at::<readings!(@forms $form), _>($alloc, $body, |readings!(@names $field)| Op::$ask($field))
    };
    (@forms) => { () };
    (@forms $form:ident $(, $more:ident)*) => { (readings!(@form $form), readings!(@forms $($more),*)) };
    (@names) => { () };
    (@names $field:ident $(, $more:ident)*) => { ($field, readings!(@names $($more),*)) };
    (@form number) => { NumberForm };
    (@form id) => { IdForm };
    (@form flag) => { FlagForm };
    (@form type_name) => { NameForm };
    (@form text) => { TextForm };
    (@form blob) => { BlobForm };
    (@form caller) => { CallerForm };
    (@form entries) => { EntriesForm };
}

/// What a body says for an operation's number.
#[tactic(auto, unfolding(crate::specs::Frame::op_of), using(crate::proofs::RowLemmas::row_gives))]
fn op_at(alloc: Global, which: u16, body: &[u8]) -> Result<Op, WireFault>
    ensures { GivesRead (λ op. op) result (op_of which body.now) }
{
    asks!(readings, which, alloc, body)
}

/// What is said by an operation's number, a context, and what follows them. A frame too short for its tag has a bad
/// body, but only where there is such an operation.
fn said_at(
    alloc: Global,
    which: u16,
    context: u32,
    is_tagged: bool,
    more: &[u8],
) -> Result<Framed, WireFault>
    ensures { GivesRead (λ framed. framed) result
        (said_by which context ((tag_field is_tagged).read more.now)) }
{
    match tag_at(is_tagged, more) {
        None => match op_at(alloc, which, &[]) {
            Ok(_) => Err(WireFault::BadBody),
            Err(fault) => Err(fault),
        },
        Some((tag, body)) => {
            let op = op_at(alloc, which, body)?;
            let ask = Ask { context, op };
            Ok(Framed { ask, tag })
        }
    }
}

#[tactic(auto, unfolding(crate::specs::Frame::framed_of))]
fn framed_at(alloc: Global, frame: &[u8]) -> Result<Framed, WireFault>
    ensures { GivesRead (λ framed. framed) result (framed_of frame.now) }
{
    let (version, rest) = u16_at(frame)?;
    let (which, rest) = u16_at(rest)?;
    let (context, more) = u32_at(rest)?;
    match version {
        UNTAGGED => said_at(alloc, which, context, false, more),
        TAGGED => said_at(alloc, which, context, true, more),
        _ => Err(WireFault::BadVersion),
    }
}

/// The frame at the front, and what follows it. None where no frame is whole yet.
#[tactic(auto, unfolding(crate::specs::Frame::front_of))]
pub(crate) fn front_at(alloc: Global, bytes: &[u8]) -> Result<Option<(Framed, &[u8])>, WireFault>
    ensures exact { GivesRead (λ o. option_map (λ x. (x.0, x.1.now)) o) result (front_of bytes.now) }
    ensures shorter { IfOk result (λ o. IfSome o (λ x. length x.1.now < length bytes.now)) }
    ensures part { IfOk result (λ o. IfSome o
        (λ x. x.1.now ≡ drop (length bytes.now - length x.1.now) bytes.now)) }
{
    if bytes.len() < 4 {
        return Ok(None);
    }
    let (front, rest) = bytes.split_at(4);
    let len = LittleEndian::read_u32(front) as usize;
    if len < MIN_LENGTH || len > MAX_LENGTH {
        return Err(WireFault::BadLength);
    }
    if rest.len() < len {
        return Ok(None);
    }
    let (frame, more) = rest.split_at(len);
    let framed = framed_at(alloc, frame)?;
    Ok(Some((framed, more)))
}
