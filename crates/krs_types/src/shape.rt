ghost use Rattle.std.specs.Prelude.{◌≡◌};
ghost use Rattle.krs_types.specs.Rows.{row_of};

use crate::{Op, asks};

/// What kind of answer an accepted ask gets.
#[derive(Clone, Copy, Debug, PartialEq, Eq)]
pub enum Shape {
    Nothing,
    Number,
    Bytes,
}

macro_rules! shapes {
    ($op:expr; $($ask:ident $number:literal $shape:ident $marks:tt $fields:tt;)*) => {
        match $op {
            $(Op::$ask { .. } => Shape::$shape,)*
        }
    };
}

impl Shape {
    /// The kind of answer that an operation gets.
    pub fn of(op: &Op) -> Shape
        ensures { result ≡ (row_of op.now).shape }
    {
        asks!(shapes, op)
    }
}
