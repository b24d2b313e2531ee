// How long the frame of an ask is, before anything is allocated for it.
ghost use Rattle.std.specs.Prelude.{◌+◌, ◌≡◌, length, min};
ghost use Rattle.krs_types.specs.Rows.{row_of};
ghost use Rattle.krs_wire.specs.Bodies.{body_of_op, caller_field, entries_field, entry_field, size_of};
ghost use Rattle.krs_wire.specs.Encoding.{ask_text};

use krs_types::{Ask, Caller, FilterEntries, FilterEntry, Op, asks};

fn entry_length(entry: &FilterEntry) -> usize
    ensures { result ≡ length (entry_field.encode entry.now) }
{
    let words: &[u32] = &entry.subtypes;
    12 + 4 * words.len()
}

/// The length of entries with their count, or the greatest number where it is above that.
fn entries_length(entries: &FilterEntries) -> usize
    ensures { result ≡ min (length (entries_field.encode entries.now)) usize.MAX }
{
    let lines = entries.as_slice();
    let mut length: usize = 4;
    for entry in lines {
        length = length.saturating_add(entry_length(entry));
    }
    length
}

/// The length of whom a client says that it is, or the greatest number where it is above that.
fn caller_length(caller: &Caller) -> usize
    ensures { result ≡ min (length (caller_field.encode caller.now)) usize.MAX }
{
    let groups = caller.groups.as_slice().len().saturating_mul(4);
    groups.saturating_add(12)
}

macro_rules! lengths {
    ($op:expr; $($ask:ident $number:literal $shape:ident $marks:tt $fields:tt;)*) => {
        match $op {
            $(lengths!(@ask $ask $fields) => lengths!(@body $fields),)*
        }
    };
    (@ask $ask:ident {$($field:ident: $form:ident),*}) => { Op::$ask { $($field: lengths!(@name $form $field)),* } };
    (@ask $ask:ident ($field:ident: $form:ident)) => { Op::$ask($field) };
    (@name number $field:ident) => { _ };
    (@name id $field:ident) => { _ };
    (@name flag $field:ident) => { _ };
    (@name $form:ident $field:ident) => { $field };
    (@body {$($field:ident: $form:ident),*}) => {{
        let length: usize = 0 $(+ lengths!(@fixed $form))*;
        $(let length = lengths!(@more length, $form $field);)*
        length
    }};
    (@body ($field:ident: $form:ident)) => {{
        let length: usize = lengths!(@fixed $form);
        lengths!(@more length, $form $field)
    }};
    (@fixed number) => { 4 };
    (@fixed id) => { 4 };
    (@fixed flag) => { 1 };
    (@fixed type_name) => { 2 };
    (@fixed text) => { 2 };
    (@fixed blob) => { 4 };
    (@fixed caller) => { 0 };
    (@fixed entries) => { 0 };
    (@more $length:expr, number $field:ident) => { $length };
    (@more $length:expr, id $field:ident) => { $length };
    (@more $length:expr, flag $field:ident) => { $length };
    (@more $length:expr, caller $field:ident) => { $length.saturating_add(caller_length($field)) };
    (@more $length:expr, entries $field:ident) => { $length.saturating_add(entries_length($field)) };
    (@more $length:expr, $form:ident $field:ident) => { $length.saturating_add($field.as_slice().len()) };
}

/// The length of the fields of an ask, or the greatest number where it is above that.
fn fields_length(op: &Op) -> usize
    ensures { result ≡ min (size_of (row_of op.now).body) usize.MAX }
{
    asks!(lengths, op)
}

/// The length of a body, or the greatest number where it is above that.
fn body_length(op: &Op) -> usize
    ensures { result ≡ min (length (body_of_op op.now)) usize.MAX }
{
    fields_length(op)
}

/// What the length of an ask's frame says, or the greatest number where it would be above that.
pub(crate) fn ask_length(ask: &Ask, tag: Option<u64>) -> usize
    ensures { result ≡ min (length (ask_text tag ask.now)) usize.MAX }
{
    let head = match tag {
        None => 8,
        Some(_) => 16,
    };
    body_length(&ask.op).saturating_add(head)
}
