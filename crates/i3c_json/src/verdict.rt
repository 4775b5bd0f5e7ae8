ghost use Rattle.std.specs.Prelude.{◌≡◌, OnOk};
ghost use Rattle.serde_json.specs.View.{members_view};
ghost use Rattle.i3c_json.specs.Objects.{put_address, put_outcome, put_unmet, put_verdict, refusal_address};

use crate::objects::unmet_value;
use crate::values::{Fields, put_flag, put_hex, put_text};
use i3c_base::Addr7;
use i3c_lines::Refusal;
use i3c_step::Refusal as BusRefusal;
use serde_json::put;
use std::alloc::{AllocError, Global};

/// How a line of a program ended.
#[derive(Clone, Copy)]
pub enum Verdict<'a> {
    /// It was done.
    Done,
    /// The bus, or the script, refused it.
    Refused(Refusal),
    /// It isn't done, for a reason with this name.
    Named(&'a [u8]),
    /// The expectation of the line with this number doesn't hold, and this is there instead.
    Unmet(u64, &'a [u8]),
}

/// Puts how the line ended.
pub(crate) fn put_verdict(
    alloc: Global,
    verdict: &Verdict<'_>,
    fields: &mut Fields,
) -> Result<(), AllocError>
    ensures { OnOk result (members_view fields.new.entries ≡ put_verdict verdict.now (members_view fields.old.entries)) }
{
    match verdict {
        Verdict::Done => put_flag(alloc, "ok", true, fields),
        Verdict::Refused(why) => put_refusal(alloc, why, fields),
        Verdict::Named(name) => put_text(alloc, "refused", name, fields),
        Verdict::Unmet(line, there) => put_unmet(alloc, *line, there, fields),
    }
}

/// Puts why the line was refused.
fn put_refusal(alloc: Global, why: &Refusal, fields: &mut Fields) -> Result<(), AllocError>
    ensures { OnOk result (members_view fields.new.entries ≡ put_outcome (Some why.now) (members_view fields.old.entries)) }
{
    put_text(alloc, "refused", why.token().as_bytes(), fields)?;
    put_address(alloc, refusal_address(why), fields)
}

/// The address that a refusal is about, if it is about one.
fn refusal_address(why: &Refusal) -> Option<Addr7>
    ensures { result ≡ refusal_address why.now }
{
    match why {
        Refusal::Bus(BusRefusal::NoAnswer(address) | BusRefusal::BadAddress(address)) => {
            Some(*address)
        }
        _ => None,
    }
}

/// Puts the address that a refusal is about.
fn put_address(alloc: Global, address: Option<Addr7>, fields: &mut Fields) -> Result<(), AllocError>
    ensures { OnOk result (members_view fields.new.entries ≡ put_address address (members_view fields.old.entries)) }
{
    match address {
        None => Ok(()),
        Some(address) => put_hex(alloc, "about", address.get(), fields),
    }
}

/// Puts that the expectation of a line doesn't hold, and what is there instead.
fn put_unmet(alloc: Global, line: u64, there: &[u8], fields: &mut Fields) -> Result<(), AllocError>
    ensures { OnOk result (members_view fields.new.entries ≡ put_unmet line there.now (members_view fields.old.entries)) }
{
    put_text(alloc, "refused", b"Unmet", fields)?;
    put(fields, alloc, "unmet", unmet_value(alloc, line, there)?)
}
