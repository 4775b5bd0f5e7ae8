ghost use Rattle.std.specs.Prelude.{◌≡◌, IfOk, OnOk};
ghost use Rattle.serde_json.specs.View.{members_view, view};
ghost use Rattle.i3c_json.specs.Values.{assigned_data, description_data, device_data, entered_data, put_identity, record_data, target_data, tenure_data, unmet_data};

use crate::values::{
    Fields, put_byte, put_flag, put_hex, put_name, put_number, put_place, put_text, put_wish,
};
use i3c_base::{Addr7, Identity, Record, Slot};
use i3c_lines::Name;
use i3c_script::Description;
use i3c_text::Text;
use serde_json::{Map, Value};
use std::alloc::{AllocError, Global};

/// A record with its number in the log.
pub(crate) fn record_value(
    alloc: Global,
    number: u64,
    recorded: &Record,
) -> Result<Value, AllocError>
    ensures { IfOk result (λ value. view value ≡ record_data number recorded.now) }
{
    let mut fields = Map::new(alloc);
    put_number(alloc, "slot", recorded.slot.index() as u64, &mut fields)?;
    put_number(alloc, "raise", recorded.number, &mut fields)?;
    put_number(alloc, "number", number, &mut fields)?;
    put_byte(alloc, "byte", recorded.byte, &mut fields)?;
    put_hex(alloc, "address", recorded.at.get(), &mut fields)?;
    Ok(Value::Object(fields))
}

/// An address, and the identity that got it.
pub(crate) fn assigned_value(
    alloc: Global,
    address: Addr7,
    identity: &Identity,
) -> Result<Value, AllocError>
    ensures { IfOk result (λ value. view value ≡ assigned_data address identity.now) }
{
    let mut fields = Map::new(alloc);
    put_identity(alloc, identity, &mut fields)?;
    put_hex(alloc, "address", address.get(), &mut fields)?;
    Ok(Value::Object(fields))
}

/// Puts an identity.
fn put_identity(alloc: Global, identity: &Identity, fields: &mut Fields) -> Result<(), AllocError>
    ensures { OnOk result (members_view fields.new.entries ≡ put_identity identity.now (members_view fields.old.entries)) }
{
    let mut digits = Text::new(alloc);
    digits.push_pid(identity.pid)?;
    put_text(alloc, "pid", digits.as_bytes(), fields)?;
    put_hex(alloc, "dcr", identity.dcr.0, fields)?;
    put_hex(alloc, "bcr", identity.bcr.0, fields)
}

/// A legacy target, and its static address.
pub(crate) fn target_value(alloc: Global, name: &Name, address: Addr7) -> Result<Value, AllocError>
    ensures { IfOk result (λ value. view value ≡ target_data name.now address) }
{
    let mut fields = Map::new(alloc);
    put_name(alloc, "name", name, &mut fields)?;
    put_hex(alloc, "address", address.get(), &mut fields)?;
    Ok(Value::Object(fields))
}

/// A device that entered a slot, and its address.
pub(crate) fn entered_value(
    alloc: Global,
    name: &Name,
    slot: Slot,
    address: Option<Addr7>,
) -> Result<Value, AllocError>
    ensures { IfOk result (λ value. view value ≡ entered_data name.now slot address) }
{
    let mut fields = Map::new(alloc);
    put_number(alloc, "slot", slot.index() as u64, &mut fields)?;
    put_name(alloc, "name", name, &mut fields)?;
    put_place(alloc, "address", address, &mut fields)?;
    Ok(Value::Object(fields))
}

/// A present device, its address, and how many of its interrupts wait.
pub(crate) fn device_value(
    alloc: Global,
    name: &Name,
    address: Option<Addr7>,
    waiting: usize,
) -> Result<Value, AllocError>
    ensures { IfOk result (λ value. view value ≡ device_data name.now address waiting) }
{
    let mut fields = Map::new(alloc);
    put_number(alloc, "waiting", waiting as u64, &mut fields)?;
    put_name(alloc, "name", name, &mut fields)?;
    put_place(alloc, "address", address, &mut fields)?;
    Ok(Value::Object(fields))
}

/// What a present device is.
pub(crate) fn description_value(alloc: Global, device: &Description) -> Result<Value, AllocError>
    ensures { IfOk result (λ value. view value ≡ description_data device.now) }
{
    let mut fields = Map::new(alloc);
    put_wish(alloc, "wish", device.wish, &mut fields)?;
    put_flag(alloc, "role", device.role, &mut fields)?;
    put_name(alloc, "name", &device.name, &mut fields)?;
    put_flag(alloc, "join", device.join, &mut fields)?;
    put_flag(alloc, "interrupt", device.interrupt, &mut fields)?;
    put_identity(alloc, &device.identity, &mut fields)?;
    Ok(Value::Object(fields))
}

/// The slot that was active while the records with these numbers were made.
pub(crate) fn tenure_value(
    alloc: Global,
    slot: Slot,
    from: usize,
    to: usize,
) -> Result<Value, AllocError>
    ensures { IfOk result (λ value. view value ≡ tenure_data slot from to) }
{
    let mut fields = Map::new(alloc);
    put_number(alloc, "to", to as u64, &mut fields)?;
    put_number(alloc, "slot", slot.index() as u64, &mut fields)?;
    put_number(alloc, "from", from as u64, &mut fields)?;
    Ok(Value::Object(fields))
}

/// The line whose expectation doesn't hold, and what is there instead.
pub(crate) fn unmet_value(alloc: Global, line: u64, there: &[u8]) -> Result<Value, AllocError>
    ensures { IfOk result (λ value. view value ≡ unmet_data line there.now) }
{
    let mut fields = Map::new(alloc);
    put_text(alloc, "there", there, &mut fields)?;
    put_number(alloc, "line", line, &mut fields)?;
    Ok(Value::Object(fields))
}
