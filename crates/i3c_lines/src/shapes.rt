use crate::fields::Field;
use std::alloc::{AllocError, Global};
use std::str;
use strsim::osa_distance;

/// A command's first token, the fields that must follow it, and one that may follow these. A kind may be followed by
/// others, and by `but` with names.
#[derive(Clone, Copy)]
pub(crate) struct Shape {
    token: &'static str,
    pub(crate) required: &'static [Field],
    pub(crate) optional: Option<Field>,
}

impl Shape {
    /// These fields behind some first token.
    pub(crate) fn of(required: &'static [Field]) -> Shape {
        Shape {
            token: "",
            required,
            optional: None,
        }
    }
}

/// The commands, in the order of docs/FORMATS.md.
static SHAPES: [Shape; 39] = [
    Shape {
        token: "legacy",
        required: &[Field::Name, Field::Addr, Field::Lvr],
        optional: None,
    },
    Shape {
        token: "declare",
        required: &[Field::Addr, Field::Pid, Field::Bcr, Field::Dcr],
        optional: None,
    },
    Shape {
        token: "main",
        required: &[Field::Name, Field::Pid, Field::Bcr, Field::Dcr],
        optional: Some(Field::Decline),
    },
    Shape {
        token: "attach",
        required: &[Field::Name, Field::Pid, Field::Bcr, Field::Dcr],
        optional: Some(Field::Decline),
    },
    Shape {
        token: "drop",
        required: &[Field::Name],
        optional: None,
    },
    Shape {
        token: "raise",
        required: &[Field::Name],
        optional: Some(Field::Byte),
    },
    Shape {
        token: "ask-join",
        required: &[Field::Name],
        optional: None,
    },
    Shape {
        token: "ask-role",
        required: &[Field::Name],
        optional: None,
    },
    Shape {
        token: "policy",
        required: &[Field::Policy],
        optional: Some(Field::Kind),
    },
    Shape {
        token: "cut",
        required: &[Field::Name, Field::Bit],
        optional: None,
    },
    Shape {
        token: "serve",
        required: &[],
        optional: None,
    },
    Shape {
        token: "enec",
        required: &[Field::Byte],
        optional: Some(Field::Addr),
    },
    Shape {
        token: "disec",
        required: &[Field::Byte],
        optional: Some(Field::Addr),
    },
    Shape {
        token: "reset",
        required: &[],
        optional: None,
    },
    Shape {
        token: "list",
        required: &[],
        optional: None,
    },
    Shape {
        token: "read",
        required: &[Field::Addr],
        optional: None,
    },
    Shape {
        token: "write",
        required: &[Field::Addr],
        optional: Some(Field::Bytes),
    },
    Shape {
        token: "setdasa",
        required: &[Field::Addr, Field::New],
        optional: None,
    },
    Shape {
        token: "setnewda",
        required: &[Field::Old, Field::New],
        optional: None,
    },
    Shape {
        token: "getpid",
        required: &[Field::Addr],
        optional: None,
    },
    Shape {
        token: "getbcr",
        required: &[Field::Addr],
        optional: None,
    },
    Shape {
        token: "getdcr",
        required: &[Field::Addr],
        optional: None,
    },
    Shape {
        token: "getstatus",
        required: &[Field::Addr],
        optional: None,
    },
    Shape {
        token: "getmwl",
        required: &[Field::Addr],
        optional: None,
    },
    Shape {
        token: "getmrl",
        required: &[Field::Addr],
        optional: None,
    },
    Shape {
        token: "getmxds",
        required: &[Field::Addr],
        optional: None,
    },
    Shape {
        token: "getcaps",
        required: &[Field::Addr],
        optional: None,
    },
    Shape {
        token: "setmwl",
        required: &[Field::Length],
        optional: Some(Field::Addr),
    },
    Shape {
        token: "setmrl",
        required: &[Field::Length],
        optional: Some(Field::Addr),
    },
    Shape {
        token: "handover",
        required: &[Field::Addr],
        optional: None,
    },
    Shape {
        token: "open",
        required: &[],
        optional: None,
    },
    Shape {
        token: "round",
        required: &[],
        optional: None,
    },
    Shape {
        token: "end",
        required: &[],
        optional: None,
    },
    Shape {
        token: "daa",
        required: &[],
        optional: None,
    },
    Shape {
        token: "as",
        required: &[Field::Name, Field::Sent],
        optional: None,
    },
    Shape {
        token: "show",
        required: &[],
        optional: Some(Field::Shown),
    },
    Shape {
        token: "forget",
        required: &[Field::Place],
        optional: None,
    },
    Shape {
        token: "symbols",
        required: &[],
        optional: None,
    },
    Shape {
        token: "frames",
        required: &[Field::Count],
        optional: None,
    },
];

/// The shape of the command that has this first token, if one has.
pub(crate) fn shape_of(token: &[u8]) -> Option<&'static Shape> {
    for shape in &SHAPES {
        if shape.token.as_bytes() == token {
            return Some(shape);
        }
    }
    None
}

/// The first token of a command that is nearest to this token, if one is near: no more letters are wrong, missing, surplus
/// or swapped than a quarter of them.
pub(crate) fn nearest(alloc: Global, token: &[u8]) -> Result<Option<&'static str>, AllocError> {
    let Ok(token) = str::from_utf8(token) else {
        return Ok(None);
    };
    let mut bound = (token.len() + 1) / 4 + 1;
    let mut nearest = None;
    for shape in &SHAPES {
        let distance = osa_distance(alloc, shape.token, token)?;
        if distance < bound {
            bound = distance;
            nearest = Some(shape.token);
        }
    }
    Ok(nearest)
}
