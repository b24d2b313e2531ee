//! An ask in words: its name and its fields, texts as their bytes. What may hold a secret has no `Debug`.
use krs_types::{FilterEntry, Op, asks};
use std::alloc::{AllocError, Global};

/// What a field holds.
#[derive(Drop)]
enum Value<'a> {
    Number(i64),
    Flag(bool),
    Bytes(&'a [u8]),
    Groups(&'a [u32]),
    Entries(&'a [FilterEntry]),
}

/// Of each row the name and the fields.
macro_rules! tellings {
    ($alloc:expr, $op:expr; $($ask:ident $number:literal $shape:ident $marks:tt $fields:tt;)*) => {
        match $op {
            $(tellings!(@ask $ask $fields) => tell($alloc, stringify!($ask), &tellings!(@fields $fields)),)*
        }
    };
    (@ask $ask:ident {$($field:ident: $form:ident),*}) => { Op::$ask { $($field),* } };
    (@ask $ask:ident ($field:ident: $form:ident)) => { Op::$ask($field) };
    (@fields {$($field:ident: $form:ident),*}) => { [$((stringify!($field), tellings!(@value $form $field))),*] };
    (@fields ($caller:ident: caller)) => {
        [
            ("uid", Value::Number(i64::from($caller.uid))),
            ("gid", Value::Number(i64::from($caller.gid))),
            ("groups", Value::Groups($caller.groups.as_slice())),
        ]
    };
    (@value number $field:ident) => { Value::Number(i64::from(*$field)) };
    (@value id $field:ident) => { Value::Number(i64::from(*$field)) };
    (@value flag $field:ident) => { Value::Flag(*$field) };
    (@value entries $field:ident) => { Value::Entries($field.as_slice()) };
    (@value $form:ident $field:ident) => { Value::Bytes($field.as_slice()) };
}

pub(super) fn told(alloc: Global, op: &Op) -> Result<String, AllocError> {
    asks!(tellings, alloc, op)
}

fn tell(alloc: Global, name: &str, fields: &[(&str, Value<'_>)]) -> Result<String, AllocError> {
    let mut text = format!(in alloc; "{name}")?;
    let mut before = " { ";
    for (field, value) in fields {
        let value = value_text(alloc, value)?;
        let field = format!(in alloc; "{before}{field}: {value}")?;
        text.push_str(&field)?;
        before = ", ";
    }
    if !fields.is_empty() {
        text.push_str(" }")?;
    }
    Ok(text)
}

fn value_text(alloc: Global, value: &Value<'_>) -> Result<String, AllocError> {
    match value {
        Value::Number(number) => format!(in alloc; "{number}"),
        Value::Flag(flag) => format!(in alloc; "{flag}"),
        Value::Bytes(bytes) => format!(in alloc; "{bytes:?}"),
        Value::Groups(groups) => format!(in alloc; "{groups:?}"),
        Value::Entries(entries) => format!(in alloc; "{entries:?}"),
    }
}
