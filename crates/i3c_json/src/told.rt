ghost use Rattle.std.specs.Prelude.{◌≡◌, ℕ, ◌++◌, List, map, option_map, OnOk, IfOk};
ghost use Rattle.serde_json.specs.Data.{array};
ghost use Rattle.serde_json.specs.View.{items_of, members_view, view};
ghost use Rattle.i3c_json.specs.Values.{name_data};
ghost use Rattle.i3c_json.specs.Objects.{IsLineOf, put_asking, put_record, told_data};

use crate::aside::{Aside, put_aside};
use crate::fields::put_pieces;
use crate::objects::record_value;
use crate::values::{Fields, put_number, text_value};
use crate::verdict::{Verdict, put_verdict};
use i3c_base::Record;
use i3c_lines::Name;
use i3c_script::Piece;
use i3c_text::Text;
use serde_json::{Map, Value, push, put};
use std::alloc::{AllocError, Global};

/// The answer to a line of a program that meets every order, in its parts.
#[derive(Clone, Copy)]
pub struct Told<'a> {
    /// The line's number, from 1.
    pub number: u64,
    /// How the line ended.
    pub verdict: Verdict<'a>,
    /// The pieces that the line came to.
    pub pieces: &'a [Piece],
    /// The record that the line added to the log, if it did, and its number there, from 1.
    pub added: Option<(u64, Record)>,
    /// The names of the devices that ask, if they have changed.
    pub asking: Option<&'a [Name]>,
    /// What the answer says besides.
    pub aside: Aside<'a>,
}

/// Appends the object of such an answer to a text, and ends the line.
pub fn push_told(alloc: Global, told: &Told<'_>, text: &mut Text) -> Result<(), AllocError>
    ensures { OnOk result ((line : List ℕ) × (text.new ≡ text.old ++ line) × IsLineOf (told_data told.now) line) }
{
    let object = told_value(alloc, told)?.to_string(alloc)?;
    text.push(object.as_bytes())?;
    text.end()
}

/// The object of such an answer.
fn told_value(alloc: Global, told: &Told<'_>) -> Result<Value, AllocError>
    ensures { IfOk result (λ value. view value ≡ told_data told.now) }
{
    let mut fields = Map::new(alloc);
    put_number(alloc, "line", told.number, &mut fields)?;
    put_verdict(alloc, &told.verdict, &mut fields)?;
    put_pieces(alloc, told.pieces, &mut fields)?;
    put_record(alloc, &told.added, &mut fields)?;
    put_asking(alloc, told.asking, &mut fields)?;
    put_aside(alloc, &told.aside, &mut fields)?;
    Ok(Value::Object(fields))
}

/// Puts the record that the line added.
fn put_record(
    alloc: Global,
    added: &Option<(u64, Record)>,
    fields: &mut Fields,
) -> Result<(), AllocError>
    ensures { OnOk result (members_view fields.new.entries ≡ put_record added.now (members_view fields.old.entries)) }
{
    match added {
        None => Ok(()),
        Some((number, record)) => {
            put(
                fields,
                alloc,
                "record",
                record_value(alloc, *number, record)?,
            )
        }
    }
}

/// Puts the names of the devices that ask, if they have changed.
fn put_asking(alloc: Global, asking: Option<&[Name]>, fields: &mut Fields) -> Result<(), AllocError>
    ensures { OnOk result (members_view fields.new.entries ≡ put_asking (option_map (λ names. names.now) asking.entry) (members_view fields.old.entries)) }
{
    match asking {
        None => Ok(()),
        Some(names) => {
            let names = names_value(alloc, names)?;
            put(fields, alloc, "asking", names)
        }
    }
}

/// An array of names.
fn names_value(alloc: Global, names: &[Name]) -> Result<Value, AllocError>
    ensures { IfOk result (λ value. view value ≡ array (items_of (map name_data names.now))) }
{
    let mut values = Vec::new(alloc);
    let mut rest = names;
    while let [name, more @ ..] = rest {
        push(&mut values, text_value(alloc, name.as_bytes())?)?;
        rest = more;
    }
    Ok(Value::Array(values))
}
