// The forms of fields, and of fields one after the other, each read from the front of the bytes.
ghost use Rattle.std.specs.Int.{w32};
ghost use Rattle.krs_wire.specs.Bodies.{blob_field, caller_field, entries_field, id_field, text_field};
ghost use Rattle.krs_wire.specs.Faulting.{GivesRead, Makes, or_bad_body};
ghost use Rattle.krs_wire.specs.Field.{both, Field, flag, nothing, number, whole};

use crate::WireFault;
use crate::fields::{
    blob_at, caller_at, ended, entries_at, flag_at, id_at, text_at, type_name_at, u32_at,
};
use krs_types::{Blob, Caller, FilterEntries, Op, TypeName};
use std::alloc::Global;

/// How a field is written, or several, one after the other: docs/FORMAT.md, "Fields of bodies".
pub(crate) trait Form {
    type Value: Drop;

    ghost field: { Field Self.Value };

    fn at(alloc: Global, bytes: &[u8]) -> Result<(Self::Value, &[u8]), WireFault>
        ensures { GivesRead (λ x. (x.0, x.1.now)) result (or_bad_body (field.read bytes.now)) };
}

pub(crate) struct NumberForm;

impl Form for NumberForm {
    type Value = u32;

    ghost field = { number w32 };

    fn at(_alloc: Global, bytes: &[u8]) -> Result<(u32, &[u8]), WireFault> {
        u32_at(bytes)
    }
}

pub(crate) struct IdForm;

impl Form for IdForm {
    type Value = i32;

    ghost field = { id_field };

    fn at(_alloc: Global, bytes: &[u8]) -> Result<(i32, &[u8]), WireFault> {
        id_at(bytes)
    }
}

pub(crate) struct FlagForm;

impl Form for FlagForm {
    type Value = bool;

    ghost field = { flag };

    fn at(_alloc: Global, bytes: &[u8]) -> Result<(bool, &[u8]), WireFault> {
        flag_at(bytes)
    }
}

pub(crate) struct NameForm;

impl Form for NameForm {
    type Value = TypeName;

    ghost field = { text_field };

    fn at(alloc: Global, bytes: &[u8]) -> Result<(TypeName, &[u8]), WireFault> {
        type_name_at(alloc, bytes)
    }
}

pub(crate) struct TextForm;

impl Form for TextForm {
    type Value = Blob;

    ghost field = { text_field };

    fn at(alloc: Global, bytes: &[u8]) -> Result<(Blob, &[u8]), WireFault> {
        text_at(alloc, bytes)
    }
}

pub(crate) struct BlobForm;

impl Form for BlobForm {
    type Value = Blob;

    ghost field = { blob_field };

    fn at(alloc: Global, bytes: &[u8]) -> Result<(Blob, &[u8]), WireFault> {
        blob_at(alloc, bytes)
    }
}

pub(crate) struct CallerForm;

impl Form for CallerForm {
    type Value = Caller;

    ghost field = { caller_field };

    fn at(alloc: Global, bytes: &[u8]) -> Result<(Caller, &[u8]), WireFault> {
        caller_at(alloc, bytes)
    }
}

pub(crate) struct EntriesForm;

impl Form for EntriesForm {
    type Value = FilterEntries;

    ghost field = { entries_field };

    fn at(alloc: Global, bytes: &[u8]) -> Result<(FilterEntries, &[u8]), WireFault> {
        entries_at(alloc, bytes)
    }
}

impl Form for () {
    type Value = ();

    ghost field = { nothing };

    fn at(_alloc: Global, bytes: &[u8]) -> Result<((), &[u8]), WireFault> {
        Ok(((), bytes))
    }
}

impl<A: Form, B: Form> Form for (A, B) {
    type Value = (A::Value, B::Value);

    ghost field = { both A.field B.field };

    fn at(alloc: Global, bytes: &[u8]) -> Result<((A::Value, B::Value), &[u8]), WireFault> {
        let (first, rest) = A::at(alloc, bytes)?;
        let (others, rest) = B::at(alloc, rest)?;
        Ok(((first, others), rest))
    }
}

/// The ask that is made of the fields of a body, where nothing follows them. Each row has a function of its own by
/// this, which clears room for its own fields alone.
pub(crate) fn row_at<F: Form, M: FnOnce(F::Value) -> Op>(
    alloc: Global,
    body: &[u8],
    make: M,
) -> Result<Op, WireFault>
    requires { M.IsAlwaysCallable make }
    ensures { Makes (λ fields op. M.post make fields op) result
        (or_bad_body (whole F.field (λ fields. fields) body.now)) }
{
    let (fields, rest) = F::at(alloc, body)?;
    let fields = ended(fields, rest)?;
    Ok(make(fields))
}
