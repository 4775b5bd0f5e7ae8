ghost use Rattle.std.specs.Prelude.{◌≡◌, codes, map, IfOk, OnOk};
ghost use Rattle.serde_json.specs.Data.{put};
ghost use Rattle.serde_json.specs.View.{members_view, view};
ghost use Rattle.i3c_json.specs.Fields.{field_of, is_item, item_data, put_arrays, put_field, put_fields, put_items, put_pieces, values_of};
ghost use Rattle.i3c_json.specs.Values.{active_data, entered_data, target_data};

use crate::objects::{
    assigned_value, description_value, device_value, entered_value, record_value, target_value,
    tenure_value,
};
use crate::symbols::lines_of;
use crate::values::{Fields, put_bytes, put_flag, put_hex, put_number, put_served, put_text};
use i3c_base::{Addr7, Slot};
use i3c_lines::{Name, datum_name};
use i3c_script::Piece;
use serde_json::{Value, push, put};
use std::alloc::{AllocError, Global};

/// A field that is an array, whose items are pieces.
#[derive(Clone, Copy)]
pub(crate) enum Array {
    /// The devices that got addresses.
    Assigned,
    /// The present devices.
    Devices,
    /// The legacy targets.
    Targets,
    /// The records that are shown.
    Log,
    /// What present devices are.
    Descriptions,
    /// The active controllers with their records.
    Tenures,
}

/// Puts the fields that the pieces of a line fill.
pub(crate) fn put_pieces(
    alloc: Global,
    pieces: &[Piece],
    fields: &mut Fields,
) -> Result<(), AllocError>
    ensures { OnOk result (members_view fields.new.entries ≡ put_pieces pieces.now (members_view fields.old.entries)) }
{
    put_fields(alloc, pieces, fields)?;
    put_arrays(alloc, pieces, fields)?;
    put_items(alloc, "told", lines_of(alloc, pieces)?, fields)
}

/// Puts the fields that pieces fill by themselves. Where two pieces fill the same one, it has what the first says.
fn put_fields(alloc: Global, pieces: &[Piece], fields: &mut Fields) -> Result<(), AllocError>
    ensures { OnOk result (members_view fields.new.entries ≡ put_fields pieces.now (members_view fields.old.entries)) }
{
    let mut left = pieces.len();
    while left > 0 {
        left -= 1;
        put_field(alloc, &pieces[left], fields)?;
    }
    Ok(())
}

/// Puts the field that a piece fills by itself, if there is one.
fn put_field(alloc: Global, piece: &Piece, fields: &mut Fields) -> Result<(), AllocError>
    ensures { OnOk result (members_view fields.new.entries ≡ put_field (field_of piece.now) (members_view fields.old.entries)) }
{
    match piece {
        Piece::Legacy(name, address) => put_legacy(alloc, name, *address, fields),
        Piece::Declared(address) => put_hex(alloc, "declared", address.get(), fields),
        Piece::Main(name, address) => {
            put_entered(alloc, name, Slot::default(), *address, fields)
        }
        Piece::Entered(name, slot) => put_entered(alloc, name, *slot, None, fields),
        Piece::Dropped => put_text(alloc, "result", b"dropped", fields),
        Piece::Raised(number) => put_number(alloc, "raised", *number, fields),
        Piece::Asked => put_text(alloc, "result", b"asked", fields),
        Piece::Served(served) => put_served(alloc, "served", served, fields),
        Piece::Done => put_text(alloc, "result", b"done", fields),
        Piece::Bytes(bytes) => put_bytes(alloc, "bytes", bytes.as_slice(), fields),
        Piece::Told(what, bytes) => put_bytes(alloc, datum_name(*what), bytes.as_slice(), fields),
        Piece::Opened => put_text(alloc, "result", b"open", fields),
        Piece::Nobody => put_text(alloc, "result", b"nobody", fields),
        Piece::Ended => put_text(alloc, "result", b"ended", fields),
        Piece::Active(address) => put_active(alloc, *address, fields),
        Piece::Records(count) => put_number(alloc, "records", *count as u64, fields),
        Piece::Listed(is_current) => put_flag(alloc, "listed", *is_current, fields),
        Piece::Session(is_open) => put_flag(alloc, "session", *is_open, fields),
        _ => Ok(()),
    }
}

/// Puts a legacy target that was declared.
fn put_legacy(
    alloc: Global,
    name: &Name,
    address: Addr7,
    fields: &mut Fields,
) -> Result<(), AllocError>
    ensures { OnOk result (members_view fields.new.entries ≡ put (codes "legacy") (target_data name.now address) (members_view fields.old.entries)) }
{
    put(fields, alloc, "legacy", target_value(alloc, name, address)?)
}

/// Puts a device that entered a slot.
fn put_entered(
    alloc: Global,
    name: &Name,
    slot: Slot,
    address: Option<Addr7>,
    fields: &mut Fields,
) -> Result<(), AllocError>
    ensures { OnOk result (members_view fields.new.entries ≡ put (codes "entered") (entered_data name.now slot address) (members_view fields.old.entries)) }
{
    put(
        fields,
        alloc,
        "entered",
        entered_value(alloc, name, slot, address)?,
    )
}

/// Puts the address of the active controller. One without an address is `--`, as it is printed.
fn put_active(alloc: Global, address: Option<Addr7>, fields: &mut Fields) -> Result<(), AllocError>
    ensures { OnOk result (members_view fields.new.entries ≡ put (codes "active") (active_data address) (members_view fields.old.entries)) }
{
    match address {
        Some(address) => put_hex(alloc, "active", address.get(), fields),
        None => put_text(alloc, "active", b"--", fields),
    }
}

/// Puts the arrays that pieces are items of.
fn put_arrays(alloc: Global, pieces: &[Piece], fields: &mut Fields) -> Result<(), AllocError>
    ensures { OnOk result (members_view fields.new.entries ≡ put_arrays pieces.now (members_view fields.old.entries)) }
{
    put_array(alloc, "assigned", Array::Assigned, pieces, fields)?;
    put_array(alloc, "devices", Array::Devices, pieces, fields)?;
    put_array(alloc, "targets", Array::Targets, pieces, fields)?;
    put_array(alloc, "log", Array::Log, pieces, fields)?;
    put_array(alloc, "descriptions", Array::Descriptions, pieces, fields)?;
    put_array(alloc, "tenures", Array::Tenures, pieces, fields)
}

/// Puts an array of pieces, unless it is empty.
fn put_array(
    alloc: Global,
    key: &str,
    array: Array,
    pieces: &[Piece],
    fields: &mut Fields,
) -> Result<(), AllocError>
    ensures { OnOk result (members_view fields.new.entries ≡ put_items key.now (values_of array pieces.now) (members_view fields.old.entries)) }
{
    put_items(alloc, key, values_of(alloc, array, pieces)?, fields)
}

/// Puts an array, unless it is empty.
fn put_items(
    alloc: Global,
    key: &str,
    values: Vec<Value>,
    fields: &mut Fields,
) -> Result<(), AllocError>
    ensures { OnOk result (members_view fields.new.entries ≡ put_items key.now (map view values.items) (members_view fields.old.entries)) }
{
    if values.is_empty() {
        return Ok(());
    }
    put(fields, alloc, key, Value::Array(values))
}

/// The items of an array, in their order.
fn values_of(alloc: Global, array: Array, pieces: &[Piece]) -> Result<Vec<Value>, AllocError>
    ensures { IfOk result (λ values. map view values.items ≡ values_of array pieces.now) }
{
    let mut values = Vec::new(alloc);
    let mut rest = pieces;
    while let [piece, more @ ..] = rest {
        if is_item(array, piece) {
            push(&mut values, item_value(alloc, piece)?)?;
        }
        rest = more;
    }
    Ok(values)
}

/// Whether a piece is an item of an array.
fn is_item(array: Array, piece: &Piece) -> bool
    ensures { result ≡ is_item array piece.now }
{
    match array {
        Array::Assigned => matches!(piece, Piece::Assigned(..)),
        Array::Devices => matches!(piece, Piece::Device(..)),
        Array::Targets => matches!(piece, Piece::Target(..)),
        Array::Log => matches!(piece, Piece::Entry(..)),
        Array::Descriptions => matches!(piece, Piece::Description(_)),
        Array::Tenures => matches!(piece, Piece::Tenure { .. }),
    }
}

/// A piece as an item of an array. Of a piece that is none it is nothing.
fn item_value(alloc: Global, piece: &Piece) -> Result<Value, AllocError>
    ensures { IfOk result (λ value. view value ≡ item_data piece.now) }
{
    match piece {
        Piece::Assigned(address, identity) => assigned_value(alloc, *address, identity),
        Piece::Device(name, address, waiting) => device_value(alloc, name, *address, *waiting),
        Piece::Target(name, address) => target_value(alloc, name, *address),
        Piece::Entry(number, kept) => record_value(alloc, *number as u64, kept),
        Piece::Description(device) => description_value(alloc, device),
        Piece::Tenure { slot, from, to } => tenure_value(alloc, *slot, *from, *to),
        _ => Ok(Value::Null),
    }
}
