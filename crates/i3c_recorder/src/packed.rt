ghost use Rattle.std.specs.Prelude.{◌≡◌, IfOk, MatchOption, ⊤};
ghost use Rattle.i3c_recorder.specs.Packing.{IsShort, event_in, reply_in};

use crate::entry::Entry;
use i3c_base::{
    Addr7, Answer, Bcr, Cuts, Datum, Dcr, Direction, Fixed, Identity, Kinds, Length, Pid,
    RoundReply, Served, Setup, Slot,
};
use i3c_step::{Event, Framed, Refusal, Reply};
use std::alloc::AllocError;
use std::mem::size_of;

/// An event that cuts nobody and writes nothing, without its cuts.
#[derive(Clone, Copy)]
pub(crate) enum ShortEntry {
    /// The slot, and its device's setup: PID, BCR, DCR, and whether it is willing.
    Attach(Slot, Pid, Bcr, Dcr, bool),
    DropOff(Slot),
    Raise(Slot, Option<u8>),
    AskJoin(Slot),
    AskRole(Slot),
    Serve(Fixed),
    Enec(Option<Addr7>, Kinds, Fixed),
    Disec(Option<Addr7>, Kinds, Fixed),
    Reset(Fixed),
    SendList(Fixed),
    ReadFrom(Addr7, Fixed),
    SetStatic(Addr7, Addr7, Fixed),
    SetNew(Addr7, Addr7, Fixed),
    Get(Datum, Addr7, Fixed),
    SetLength(Direction, Length, Option<Addr7>, Fixed),
    HandOver(Addr7),
    OpenDaa,
    Round,
    EndDaa,
}

/// A reply with no bytes in it.
#[derive(Clone, Copy)]
pub(crate) enum ShortReply {
    Refused(Refusal),
    OutOfMemory,
    Attached,
    Dropped,
    Raised(u64),
    Asked,
    Served(Served),
    Done(Served),
    NoAnswer(Served, Addr7),
    Opened(Served),
    Handed(Served),
    Round(RoundReply),
    Ended,
}

/// How a run keeps an entry: in short, or as the wide entry of this place.
#[derive(Clone, Copy)]
pub(crate) enum Packed {
    Short(ShortEntry, ShortReply),
    Wide(usize),
}

// Runs are kept by the million.
const _: () = prove!(size_of::<Packed>() <= 64);

/// The event in short, where it cuts nobody and writes nothing.
pub(crate) fn short_entry_of(event: &Event) -> Option<ShortEntry>
    ensures { MatchOption result ⊤ (λ short. event.now ≡ event_in short) }
{
    match event {
        Event::Attach(slot, setup) => {
            let Identity { pid, bcr, dcr } = setup.identity;
            Some(ShortEntry::Attach(*slot, pid, bcr, dcr, setup.willing))
        }
        Event::DropOff(slot) => Some(ShortEntry::DropOff(*slot)),
        Event::Raise(slot, byte) => Some(ShortEntry::Raise(*slot, *byte)),
        Event::AskJoin(slot) => Some(ShortEntry::AskJoin(*slot)),
        Event::AskRole(slot) => Some(ShortEntry::AskRole(*slot)),
        Event::WriteTo(_, _, _, _) => None,
        Event::EndDaa => Some(ShortEntry::EndDaa),
        _ => short_frame(event),
    }
}

/// The same, of a frame with cuts that writes nothing.
fn short_frame(event: &Event) -> Option<ShortEntry>
    ensures { MatchOption result ⊤ (λ short. event.now ≡ event_in short) }
{
    match event {
        Event::Serve(policy, cuts) if cuts.is_empty() => Some(ShortEntry::Serve(*policy)),
        Event::Enec(to, kinds, policy, cuts) if cuts.is_empty() => {
            Some(ShortEntry::Enec(*to, *kinds, *policy))
        }
        Event::Disec(to, kinds, policy, cuts) if cuts.is_empty() => {
            Some(ShortEntry::Disec(*to, *kinds, *policy))
        }
        Event::Reset(policy, cuts) if cuts.is_empty() => Some(ShortEntry::Reset(*policy)),
        Event::SendList(policy, cuts) if cuts.is_empty() => Some(ShortEntry::SendList(*policy)),
        Event::ReadFrom(from, policy, cuts) if cuts.is_empty() => {
            Some(ShortEntry::ReadFrom(*from, *policy))
        }
        Event::SetStatic(fixed, new, policy, cuts) if cuts.is_empty() => {
            Some(ShortEntry::SetStatic(*fixed, *new, *policy))
        }
        Event::SetNew(old, new, policy, cuts) if cuts.is_empty() => {
            Some(ShortEntry::SetNew(*old, *new, *policy))
        }
        Event::Get(what, from, policy, cuts) if cuts.is_empty() => {
            Some(ShortEntry::Get(*what, *from, *policy))
        }
        Event::SetLength(way, most, to, policy, cuts) if cuts.is_empty() => {
            Some(ShortEntry::SetLength(*way, *most, *to, *policy))
        }
        Event::HandOver(to, cuts) if cuts.is_empty() => Some(ShortEntry::HandOver(*to)),
        Event::OpenDaa(cuts) if cuts.is_empty() => Some(ShortEntry::OpenDaa),
        Event::Round(cuts) if cuts.is_empty() => Some(ShortEntry::Round),
        _ => None,
    }
}

/// The short form of a reply, unless it is about bytes that were read.
pub(crate) fn short_reply_of(reply: &Reply) -> Option<ShortReply>
    ensures { MatchOption result ⊤ (λ said. reply.now ≡ reply_in said) }
{
    match reply {
        Reply::Refused(why) => Some(ShortReply::Refused(*why)),
        Reply::OutOfMemory => Some(ShortReply::OutOfMemory),
        Reply::Attached => Some(ShortReply::Attached),
        Reply::Dropped => Some(ShortReply::Dropped),
        Reply::Raised(number) => Some(ShortReply::Raised(*number)),
        Reply::Asked => Some(ShortReply::Asked),
        Reply::Served(served) => Some(ShortReply::Served(*served)),
        Reply::Framed(framed) => match framed.answer {
            Answer::Done => Some(ShortReply::Done(framed.served)),
            Answer::NoAnswer(address) => Some(ShortReply::NoAnswer(framed.served, address)),
            Answer::Bytes(_) | Answer::NoEnd => None,
        },
        Reply::Opened(served) => Some(ShortReply::Opened(*served)),
        Reply::Handed(served) => Some(ShortReply::Handed(*served)),
        Reply::Round(answer) => Some(ShortReply::Round(*answer)),
        Reply::Ended => Some(ShortReply::Ended),
    }
}

/// The entry in short, if it can be kept so.
pub(crate) fn in_short(entry: &Entry) -> Option<(ShortEntry, ShortReply)>
    ensures { MatchOption result ⊤ (λ short. IsShort short entry.now) }
{
    let short = short_entry_of(&entry.event)?;
    let said = short_reply_of(&entry.reply)?;
    Some((short, said))
}

/// The event that was kept in short.
pub(crate) fn event_in(short: &ShortEntry) -> Event
    ensures { result ≡ event_in short.now }
{
    let cuts = Cuts::new();
    match short {
        ShortEntry::Attach(slot, pid, bcr, dcr, willing) => {
            let identity = Identity {
                pid: *pid,
                bcr: *bcr,
                dcr: *dcr,
            };
            Event::Attach(
                *slot,
                Setup {
                    identity,
                    willing: *willing,
                },
            )
        }
        ShortEntry::DropOff(slot) => Event::DropOff(*slot),
        ShortEntry::Raise(slot, byte) => Event::Raise(*slot, *byte),
        ShortEntry::AskJoin(slot) => Event::AskJoin(*slot),
        ShortEntry::AskRole(slot) => Event::AskRole(*slot),
        ShortEntry::Serve(policy) => Event::Serve(*policy, cuts),
        ShortEntry::Enec(to, kinds, policy) => Event::Enec(*to, *kinds, *policy, cuts),
        ShortEntry::Disec(to, kinds, policy) => Event::Disec(*to, *kinds, *policy, cuts),
        ShortEntry::Reset(policy) => Event::Reset(*policy, cuts),
        ShortEntry::SendList(policy) => Event::SendList(*policy, cuts),
        ShortEntry::ReadFrom(from, policy) => Event::ReadFrom(*from, *policy, cuts),
        ShortEntry::SetStatic(fixed, new, policy) => {
            Event::SetStatic(*fixed, *new, *policy, cuts)
        }
        ShortEntry::SetNew(old, new, policy) => Event::SetNew(*old, *new, *policy, cuts),
        ShortEntry::Get(what, from, policy) => Event::Get(*what, *from, *policy, cuts),
        ShortEntry::SetLength(way, most, to, policy) => {
            Event::SetLength(*way, *most, *to, *policy, cuts)
        }
        ShortEntry::HandOver(to) => Event::HandOver(*to, cuts),
        ShortEntry::OpenDaa => Event::OpenDaa(cuts),
        ShortEntry::Round => Event::Round(cuts),
        ShortEntry::EndDaa => Event::EndDaa,
    }
}

/// The reply that was kept in short.
pub(crate) fn reply_in(said: &ShortReply) -> Reply
    ensures { result ≡ reply_in said.now }
{
    match said {
        ShortReply::Refused(why) => Reply::Refused(*why),
        ShortReply::OutOfMemory => Reply::OutOfMemory,
        ShortReply::Attached => Reply::Attached,
        ShortReply::Dropped => Reply::Dropped,
        ShortReply::Raised(number) => Reply::Raised(*number),
        ShortReply::Asked => Reply::Asked,
        ShortReply::Served(served) => Reply::Served(*served),
        ShortReply::Done(served) => Reply::Framed(Framed {
            served: *served,
            answer: Answer::Done,
        }),
        ShortReply::NoAnswer(served, address) => Reply::Framed(Framed {
            served: *served,
            answer: Answer::NoAnswer(*address),
        }),
        ShortReply::Opened(served) => Reply::Opened(*served),
        ShortReply::Handed(served) => Reply::Handed(*served),
        ShortReply::Round(answer) => Reply::Round(*answer),
        ShortReply::Ended => Reply::Ended,
    }
}

/// The same event once more.
pub(crate) fn copied(event: &Event) -> Result<Event, AllocError>
    ensures { IfOk result (λ copy. copy ≡ event.now) }
{
    Ok(match event {
        Event::Attach(slot, setup) => Event::Attach(*slot, *setup),
        Event::DropOff(slot) => Event::DropOff(*slot),
        Event::Raise(slot, byte) => Event::Raise(*slot, *byte),
        Event::AskJoin(slot) => Event::AskJoin(*slot),
        Event::AskRole(slot) => Event::AskRole(*slot),
        Event::Serve(policy, cuts) => Event::Serve(*policy, cuts.clone()?),
        Event::Enec(to, kinds, policy, cuts) => Event::Enec(*to, *kinds, *policy, cuts.clone()?),
        Event::Disec(to, kinds, policy, cuts) => Event::Disec(*to, *kinds, *policy, cuts.clone()?),
        Event::Reset(policy, cuts) => Event::Reset(*policy, cuts.clone()?),
        Event::SendList(policy, cuts) => Event::SendList(*policy, cuts.clone()?),
        Event::ReadFrom(from, policy, cuts) => Event::ReadFrom(*from, *policy, cuts.clone()?),
        Event::WriteTo(to, bytes, policy, cuts) => {
            Event::WriteTo(*to, bytes.clone()?, *policy, cuts.clone()?)
        }
        Event::SetStatic(fixed, new, policy, cuts) => {
            Event::SetStatic(*fixed, *new, *policy, cuts.clone()?)
        }
        Event::SetNew(old, new, policy, cuts) => {
            Event::SetNew(*old, *new, *policy, cuts.clone()?)
        }
        Event::Get(what, from, policy, cuts) => Event::Get(*what, *from, *policy, cuts.clone()?),
        Event::SetLength(way, most, to, policy, cuts) => {
            Event::SetLength(*way, *most, *to, *policy, cuts.clone()?)
        }
        Event::HandOver(to, cuts) => Event::HandOver(*to, cuts.clone()?),
        Event::OpenDaa(cuts) => Event::OpenDaa(cuts.clone()?),
        Event::Round(cuts) => Event::Round(cuts.clone()?),
        Event::EndDaa => Event::EndDaa,
    })
}
