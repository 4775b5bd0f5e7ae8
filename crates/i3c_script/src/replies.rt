ghost use Rattle.std.specs.Prelude.{◌≡◌, List, OnOk};
ghost use Rattle.i3c_step.specs.Replies.{attached_reply, dropped_reply, joins_reply, raised_reply, role_reply};
ghost use Rattle.i3c_script.specs.Hearing.{Hears, all_heard};
ghost use Rattle.i3c_script.specs.Pieces.{answer_pieces, behind_request, entered_pieces, frame_subject, given_pieces, handed_pieces, reply_pieces, round_pieces, session_pieces, subject_of};
ghost use Rattle.i3c_script.specs.declared.piece.Piece.{Piece as PieceValue};
ghost use Rattle.i3c_script.specs.declared.replies.Subject.{Subject as SubjectValue};
ghost use Rattle.i3c_script.specs.Telling.{Counts, IsTold};
ghost use Rattle.i3c_log_laws.specs.Behind.{counted_from, reply_from};

use crate::outcomes::outcome_of;
use crate::piece::{Listener, Piece};
use i3c_base::{
    Addr7, Answer, Datum, Identity, JoinRefusal, RaiseRefusal, RoleRefusal, RoundReply, Served,
    Slot,
};
use i3c_bus::{
    Assignment, Command as Frame, DropRefusal, Event, Framed, Refusal as BusRefusal, Reply,
    SlotTaken,
};
use i3c_lines::{Name, Refusal};
use i3c_text::LineError;
use std::alloc::AllocError;

/// The part of a line's event that its reply doesn't repeat.
#[derive(Clone, Copy)]
pub(crate) enum Subject {
    /// The device that was attached, and its slot.
    Attached(Name, Slot),
    /// The address to which the role was handed over.
    HandedTo(Addr7),
    /// The datum that was asked for.
    Told(Datum),
    /// Nothing.
    Nothing,
}

/// The subject of an event. The name of a device that is attached isn't in its event.
pub(crate) fn subject_of(event: &Event) -> Subject
    ensures { result ≡ subject_of event.now }
{
    match event {
        Event::HandOver(to, _) => Subject::HandedTo(*to),
        Event::Get(what, _, _, _) => Subject::Told(*what),
        _ => Subject::Nothing,
    }
}

/// The subject of a frame under the role.
pub(crate) fn frame_subject(frame: &Frame) -> Subject
    ensures { result ≡ frame_subject frame.now }
{
    match frame {
        Frame::Get(what, _) => Subject::Told(*what),
        _ => Subject::Nothing,
    }
}

/// Lets a listener hear the bus's reply to a frame under the role, as `answer_reply` does. Where nobody asked, and the frame's own part was
/// done, it looks no further.
#[inline(always)]
pub(crate) fn answer_frame<L: Listener>(
    frame: &Frame,
    reply: &Reply,
    listener: &mut L,
) -> Result<(), LineError<Refusal>>
    ensures { Hears L.heard (IsTold (frame_subject frame.now) reply.now) listener.old listener.new result }
{
    match reply {
        Reply::Framed(
            Framed {
                served: Served::Quiet,
                answer: Answer::Done,
            },
        ) => match listener.hear(Piece::Done) {
            Ok(()) => Ok(()),
            Err(_) => Err(LineError::Memory),
        },
        _ => answer_reply(frame_subject(frame), reply, listener),
    }
}

/// Lets a listener hear the bus's reply to an event. What the line is refused or stopped by is answered, and not heard.
pub(crate) fn answer_reply<L: Listener>(
    subject: Subject,
    reply: &Reply,
    listener: &mut L,
) -> Result<(), LineError<Refusal>>
    ensures { Hears L.heard (IsTold subject reply.now) listener.old listener.new result }
{
    match hear_reply(subject, reply, listener) {
        Ok(()) => outcome_of(reply),
        Err(_) => Err(LineError::Memory),
    }
}

/// Counts the records that have left the log in a reply's record too, if it has one.
///
/// # Errors
///
/// The number is more than a `usize` holds.
#[inline(always)]
pub(crate) fn count_from(forgotten: usize, reply: &mut Reply) -> Result<(), LineError<Refusal>>
    ensures { Counts forgotten reply.old reply.new result }
{
    if forgotten == 0 {
        return Ok(());
    }
    match number_from(forgotten, reply) {
        Ok(()) => Ok(()),
        Err(_) => Err(LineError::Memory),
    }
}

/// The same when records have left the log.
// kept apart, so that a line pays for no more than the question whether any has
#[inline(never)]
fn number_from(forgotten: usize, reply: &mut Reply) -> Result<(), AllocError>
    ensures { OnOk result (reply.new ≡ reply_from forgotten reply.old) }
{
    match reply {
        Reply::Served(served) => number_served(forgotten, served),
        Reply::Framed(framed) => number_served(forgotten, &mut framed.served),
        Reply::Opened(served) => number_served(forgotten, served),
        Reply::Handed(served) => number_served(forgotten, served),
        _ => Ok(()),
    }
}

/// The same of the result of a request.
fn number_served(forgotten: usize, served: &mut Served) -> Result<(), AllocError>
    ensures { OnOk result (served.new ≡ counted_from forgotten served.old) }
{
    if let Served::Recorded(place) = served {
        let Some(number) = place.checked_add(forgotten) else {
            return Err(AllocError);
        };
        *place = number;
    }
    Ok(())
}

/// Lets a listener hear the result of a raise.
#[inline(always)]
pub(crate) fn answer_raised<L: Listener>(
    raised: Result<u64, RaiseRefusal>,
    listener: &mut L,
) -> Result<(), LineError<Refusal>>
    ensures { Hears L.heard (IsTold SubjectValue.Nothing (raised_reply raised)) listener.old listener.new result }
{
    match raised {
        Ok(number) => match listener.hear(Piece::Raised(number)) {
            Ok(()) => Ok(()),
            Err(_) => Err(LineError::Memory),
        },
        Err(why) => Err(LineError::Refused(Refusal::Bus(why.into()))),
    }
}

/// Lets a listener hear that a device was attached to this slot.
pub(crate) fn answer_attached<L: Listener>(
    name: &Name,
    slot: Slot,
    attached: Result<(), SlotTaken>,
    listener: &mut L,
) -> Result<(), LineError<Refusal>>
    ensures { Hears L.heard (IsTold (SubjectValue.Attached name.now slot) (attached_reply attached)) listener.old listener.new result }
{
    match attached {
        Ok(()) => match listener.hear(Piece::Entered(*name, slot)) {
            Ok(()) => Ok(()),
            Err(_) => Err(LineError::Memory),
        },
        Err(SlotTaken) => Err(LineError::Refused(Refusal::Bus(BusRefusal::SlotTaken))),
    }
}

/// Lets a listener hear the result of a drop-off.
pub(crate) fn answer_dropped<L: Listener>(
    dropped: Result<(), DropRefusal>,
    listener: &mut L,
) -> Result<(), LineError<Refusal>>
    ensures { Hears L.heard (IsTold SubjectValue.Nothing (dropped_reply dropped)) listener.old listener.new result }
{
    match dropped {
        Ok(()) => match listener.hear(Piece::Dropped) {
            Ok(()) => Ok(()),
            Err(_) => Err(LineError::Memory),
        },
        Err(why) => Err(LineError::Refused(Refusal::Bus(why.into()))),
    }
}

/// Lets a listener hear the result of a wish to join.
pub(crate) fn answer_join<L: Listener>(
    asked: Result<(), JoinRefusal>,
    listener: &mut L,
) -> Result<(), LineError<Refusal>>
    ensures { Hears L.heard (IsTold SubjectValue.Nothing (joins_reply asked)) listener.old listener.new result }
{
    match asked {
        Ok(()) => match listener.hear(Piece::Asked) {
            Ok(()) => Ok(()),
            Err(_) => Err(LineError::Memory),
        },
        Err(why) => Err(LineError::Refused(Refusal::Bus(why.into()))),
    }
}

/// Lets a listener hear the result of a wish for the role.
pub(crate) fn answer_role<L: Listener>(
    asked: Result<(), RoleRefusal>,
    listener: &mut L,
) -> Result<(), LineError<Refusal>>
    ensures { Hears L.heard (IsTold SubjectValue.Nothing (role_reply asked)) listener.old listener.new result }
{
    match asked {
        Ok(()) => match listener.hear(Piece::Asked) {
            Ok(()) => Ok(()),
            Err(_) => Err(LineError::Memory),
        },
        Err(why) => Err(LineError::Refused(Refusal::Bus(why.into()))),
    }
}

/// Lets a listener hear a reply that is no refusal.
fn hear_reply<L: Listener>(
    subject: Subject,
    reply: &Reply,
    listener: &mut L,
) -> Result<(), AllocError>
    ensures { OnOk result (listener.new ≡ all_heard L.heard listener.old (reply_pieces subject reply.now)) }
{
    match reply {
        Reply::Refused(_) | Reply::OutOfMemory => Ok(()),
        Reply::Attached => hear_entered(subject, listener),
        Reply::Dropped => listener.hear(Piece::Dropped),
        Reply::Raised(number) => listener.hear(Piece::Raised(*number)),
        Reply::Asked => listener.hear(Piece::Asked),
        Reply::Served(served) => listener.hear(Piece::Served(*served)),
        Reply::Framed(framed) => {
            hear_request(&framed.served, listener)?;
            hear_answer(subject, &framed.answer, listener)
        }
        Reply::Opened(served) => {
            hear_request(served, listener)?;
            listener.hear(Piece::Opened)
        }
        Reply::Handed(served) => hear_handed(subject, served, listener),
        Reply::Round(answer) => hear_round(answer, listener),
        Reply::Ended => listener.hear(Piece::Ended),
    }
}

/// A device entered, and nothing is heard of another subject.
fn hear_entered<L: Listener>(subject: Subject, listener: &mut L) -> Result<(), AllocError>
    ensures { OnOk result (listener.new ≡ all_heard L.heard listener.old (entered_pieces subject)) }
{
    match subject {
        Subject::Attached(name, slot) => listener.hear(Piece::Entered(name, slot)),
        Subject::HandedTo(_) | Subject::Told(_) | Subject::Nothing => Ok(()),
    }
}

/// What a frame served before its own part, unless nobody asked.
fn hear_request<L: Listener>(served: &Served, listener: &mut L) -> Result<(), AllocError>
    ensures { (rest : List PieceValue) → OnOk result (all_heard L.heard listener.new rest ≡ all_heard L.heard listener.old (behind_request served.now rest)) }
{
    match served {
        Served::Quiet => Ok(()),
        _ => listener.hear(Piece::Served(*served)),
    }
}

/// The answer to a frame's own part, if it was carried out.
fn hear_answer<L: Listener>(
    subject: Subject,
    answer: &Answer,
    listener: &mut L,
) -> Result<(), AllocError>
    ensures { OnOk result (listener.new ≡ all_heard L.heard listener.old (answer_pieces subject answer.now)) }
{
    match answer {
        Answer::Done => listener.hear(Piece::Done),
        Answer::Bytes(bytes) => match subject {
            Subject::Told(what) => listener.hear(Piece::Told(what, *bytes)),
            Subject::Attached(..) | Subject::HandedTo(_) | Subject::Nothing => {
                listener.hear(Piece::Bytes(*bytes))
            }
        },
        Answer::NoAnswer(_) | Answer::NoEnd => Ok(()),
    }
}

/// What was served while the role was handed over, and the address of its holder. Of another subject nothing is heard.
fn hear_handed<L: Listener>(
    subject: Subject,
    served: &Served,
    listener: &mut L,
) -> Result<(), AllocError>
    ensures { OnOk result (listener.new ≡ all_heard L.heard listener.old (handed_pieces subject served.now)) }
{
    let Subject::HandedTo(to) = subject else {
        return Ok(());
    };
    hear_request(served, listener)?;
    listener.hear(Piece::Active(Some(to)))
}

/// What a whole session came to, unless no address was left: what its opening served, and the addresses that it gave.
pub(crate) fn hear_session<L: Listener>(
    all: &Assignment,
    listener: &mut L,
) -> Result<(), AllocError>
    ensures { OnOk result (listener.new ≡ all_heard L.heard listener.old (behind_request all.now.served (session_pieces all.now.given.items all.now.complete))) }
{
    hear_request(&all.served, listener)?;
    hear_given(all.given.as_slice(), listener)?;
    if all.complete {
        return listener.hear(Piece::Done);
    }
    Ok(())
}

/// The addresses that a session gave, in order.
fn hear_given<L: Listener>(given: &[(Addr7, Identity)], listener: &mut L) -> Result<(), AllocError>
    ensures { OnOk result (listener.new ≡ all_heard L.heard listener.old (given_pieces given.now)) }
{
    let mut rest = given;
    while let [(address, identity), more @ ..] = rest {
        listener.hear(Piece::Assigned(*address, *identity))?;
        rest = more;
    }
    Ok(())
}

/// A round of a session.
fn hear_round<L: Listener>(answer: &RoundReply, listener: &mut L) -> Result<(), AllocError>
    ensures { OnOk result (listener.new ≡ all_heard L.heard listener.old (round_pieces answer.now)) }
{
    match answer {
        RoundReply::Assigned(address, identity) => {
            listener.hear(Piece::Assigned(*address, *identity))
        }
        RoundReply::Nobody => listener.hear(Piece::Nobody),
        RoundReply::Done => listener.hear(Piece::Done),
        RoundReply::NoAddress => Ok(()),
    }
}
