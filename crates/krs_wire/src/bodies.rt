// The body of each ask, put behind the bytes before it.
ghost use Rattle.std.specs.Prelude.{◌++◌, ◌+◌, ◌≡◌, ◌≢◌, ◌≤◌, IfErr, length, OnOk};
ghost use Rattle.krs_types.specs.Rows.{row_of};
ghost use Rattle.krs_wire.specs.{Bodies.{body_of_op, FitsOp, size_of, written}, Encoding.IsTooLong};

use crate::WireFault;
use crate::forms::{
    BlobForm, CallerForm, EntriesForm, FlagForm, Form, IdForm, NameForm, NumberForm, TextForm,
};
use crate::put::{put_blob, put_caller, put_entries, put_flag, put_id, put_text, put_u32};
use krs_types::{Blob, Caller, FilterEntries, Op, TypeName, asks};

/// The form of one field, put behind the bytes before it.
trait PutForm: Form {
    fn put(out: &mut Vec<u8>, value: &Self::Value) -> Result<(), WireFault>
        ensures ok { OnOk result (out.new.items ≡ out.old.items ++ Self.field.encode value.now) }
        ensures fits { OnOk result (Self.field.Fits value.now) }
        ensures long { IfErr result (IsTooLong 65536 (Self.field.encode value.now)) };
}

impl PutForm for NumberForm {
    fn put(out: &mut Vec<u8>, value: &u32) -> Result<(), WireFault> {
        put_u32(out, *value)
    }
}

impl PutForm for IdForm {
    fn put(out: &mut Vec<u8>, value: &i32) -> Result<(), WireFault> {
        put_id(out, *value)
    }
}

impl PutForm for FlagForm {
    fn put(out: &mut Vec<u8>, value: &bool) -> Result<(), WireFault> {
        put_flag(out, *value)
    }
}

impl PutForm for NameForm {
    fn put(out: &mut Vec<u8>, value: &TypeName) -> Result<(), WireFault> {
        put_text(out, value.as_slice())
    }
}

impl PutForm for TextForm {
    fn put(out: &mut Vec<u8>, value: &Blob) -> Result<(), WireFault> {
        put_text(out, value.as_slice())
    }
}

impl PutForm for BlobForm {
    fn put(out: &mut Vec<u8>, value: &Blob) -> Result<(), WireFault> {
        put_blob(out, value)
    }
}

impl PutForm for CallerForm {
    fn put(out: &mut Vec<u8>, value: &Caller) -> Result<(), WireFault> {
        put_caller(out, value)
    }
}

impl PutForm for EntriesForm {
    fn put(out: &mut Vec<u8>, value: &FilterEntries) -> Result<(), WireFault> {
        put_entries(out, value)
    }
}

/// Two fields, one after the other.
fn put_two<A: PutForm, B: PutForm>(
    out: &mut Vec<u8>,
    a: &A::Value,
    b: &B::Value,
) -> Result<(), WireFault>
    ensures ok { OnOk result (out.new.items ≡ (out.old.items ++ A.field.encode a.now) ++ B.field.encode b.now) }
    ensures fits { OnOk result (A.field.Fits a.now × B.field.Fits b.now) }
    ensures fault { IfErr result (λ fault. fault ≢ WireFault.Memory → fault ≡ WireFault.BadLength) }
    ensures long { IfErr result (λ fault. fault ≢ WireFault.Memory →
        65536 ≤ length (A.field.encode a.now) + length (B.field.encode b.now)) }
{
    A::put(out, a)?;
    B::put(out, b)
}

/// Three fields.
fn put_three<A: PutForm, B: PutForm, C: PutForm>(
    out: &mut Vec<u8>,
    a: &A::Value,
    b: &B::Value,
    c: &C::Value,
) -> Result<(), WireFault>
    ensures ok { OnOk result (out.new.items
        ≡ ((out.old.items ++ A.field.encode a.now) ++ B.field.encode b.now) ++ C.field.encode c.now) }
    ensures fits { OnOk result (A.field.Fits a.now × B.field.Fits b.now × C.field.Fits c.now) }
    ensures fault { IfErr result (λ fault. fault ≢ WireFault.Memory → fault ≡ WireFault.BadLength) }
    ensures long { IfErr result (λ fault. fault ≢ WireFault.Memory → 65536
        ≤ length (A.field.encode a.now) + (length (B.field.encode b.now) + length (C.field.encode c.now))) }
{
    A::put(out, a)?;
    put_two::<B, C>(out, b, c)
}

/// Four fields.
fn put_four<A: PutForm, B: PutForm, C: PutForm, D: PutForm>(
    out: &mut Vec<u8>,
    a: &A::Value,
    b: &B::Value,
    c: &C::Value,
    d: &D::Value,
) -> Result<(), WireFault>
    ensures ok { OnOk result (out.new.items ≡ (((out.old.items ++ A.field.encode a.now) ++ B.field.encode b.now)
        ++ C.field.encode c.now) ++ D.field.encode d.now) }
    ensures fits { OnOk result
        (A.field.Fits a.now × B.field.Fits b.now × C.field.Fits c.now × D.field.Fits d.now) }
    ensures fault { IfErr result (λ fault. fault ≢ WireFault.Memory → fault ≡ WireFault.BadLength) }
    ensures long { IfErr result (λ fault. fault ≢ WireFault.Memory → 65536
        ≤ length (A.field.encode a.now) + (length (B.field.encode b.now)
        + (length (C.field.encode c.now) + length (D.field.encode d.now)))) }
{
    put_two::<A, B>(out, a, b)?;
    put_two::<C, D>(out, c, d)
}

macro_rules! writings {
    ($op:expr, $out:expr; $($ask:ident $number:literal $shape:ident $marks:tt $fields:tt;)*) => {
        match $op {
            $(writings!(@ask $ask $fields) => writings!(@body $out, $fields),)*
        }
    };
    (@ask $ask:ident {$($field:ident: $form:ident),*}) => { Op::$ask { $($field),* } };
    (@ask $ask:ident ($field:ident: $form:ident)) => { Op::$ask($field) };
    (@body $out:expr, {}) => { Ok(()) };
    (@body $out:expr, {$a:ident: $of_a:ident}) => { <writings!(@form $of_a)>::put($out, $a) };
    (@body $out:expr, ($a:ident: $of_a:ident)) => { <writings!(@form $of_a)>::put($out, $a) };
    (@body $out:expr, {$a:ident: $of_a:ident, $b:ident: $of_b:ident}) => {
        put_two::<writings!(@form $of_a), writings!(@form $of_b)>($out, $a, $b)
    };
    (@body $out:expr, {$a:ident: $of_a:ident, $b:ident: $of_b:ident, $c:ident: $of_c:ident}) => {
        put_three::<writings!(@form $of_a), writings!(@form $of_b), writings!(@form $of_c)>($out, $a, $b, $c)
    };
    (@body $out:expr, {$a:ident: $of_a:ident, $b:ident: $of_b:ident, $c:ident: $of_c:ident, $d:ident: $of_d:ident}) => {
        put_four::<
            writings!(@form $of_a),
            writings!(@form $of_b),
            writings!(@form $of_c),
            writings!(@form $of_d),
        >($out, $a, $b, $c, $d)
    };
    (@form number) => { NumberForm };
    (@form id) => { IdForm };
    (@form flag) => { FlagForm };
    (@form type_name) => { NameForm };
    (@form text) => { TextForm };
    (@form blob) => { BlobForm };
    (@form caller) => { CallerForm };
    (@form entries) => { EntriesForm };
}

/// The fields of an ask, one by one. A refusal for another cause than memory comes of a field that is too long.
fn put_fields(out: &mut Vec<u8>, op: &Op) -> Result<(), WireFault>
    ensures ok { OnOk result (out.new.items ≡ written out.old.items (row_of op.now).body) }
    ensures fits { OnOk result (FitsOp op.now) }
    ensures fault { IfErr result (λ fault. fault ≢ WireFault.Memory → fault ≡ WireFault.BadLength) }
    ensures long { IfErr result (λ fault. fault ≢ WireFault.Memory → 65536 ≤ size_of (row_of op.now).body) }
{
    asks!(writings, op, out)
}

pub(crate) fn put_body(out: &mut Vec<u8>, op: &Op) -> Result<(), WireFault>
    ensures ok { OnOk result (out.new.items ≡ out.old.items ++ body_of_op op.now) }
    ensures fits { OnOk result (FitsOp op.now) }
    ensures long { IfErr result (IsTooLong 65536 (body_of_op op.now)) }
{
    put_fields(out, op)
}
