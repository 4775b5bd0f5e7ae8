ghost use Rattle.std.specs.Prelude.{◌≡◌, ◌≢◌};
ghost use Rattle.i3c_step.specs.declared.replies.Reply.{Reply as ReplyValue};
ghost use Rattle.i3c_script.specs.Assigning.{session_refusal};
ghost use Rattle.i3c_script.specs.Stops.{Ends, answer_refusal, reply_refusal, round_refusal};

use i3c_base::{Answer, RoundReply};
use i3c_bus::{Refusal as BusRefusal, Reply};
use i3c_lines::Refusal;
use i3c_text::LineError;

/// The result of a line by the bus's reply: the one place for refusals and for want of memory.
pub(crate) fn outcome_of(reply: &Reply) -> Result<(), LineError<Refusal>>
    ensures { Ends (λ refused. (reply.now ≢ ReplyValue.OutOfMemory) × (refused ≡ reply_refusal reply.now)) result }
{
    match reply {
        Reply::Refused(why) => Err(LineError::Refused(Refusal::Bus(*why))),
        Reply::OutOfMemory => Err(LineError::Memory),
        Reply::Framed(framed) => outcome_of_answer(&framed.answer),
        Reply::Round(answer) => outcome_of_round(answer),
        Reply::Attached
        | Reply::Dropped
        | Reply::Raised(_)
        | Reply::Asked
        | Reply::Served(_)
        | Reply::Opened(_)
        | Reply::Handed(_)
        | Reply::Ended => Ok(()),
    }
}

/// The result of a line by the answer to a frame's own part.
fn outcome_of_answer(answer: &Answer) -> Result<(), LineError<Refusal>>
    ensures refused { Ends (λ refused. refused ≡ answer_refusal answer.now) result }
    ensures fed { result ≢ Err LineError.Memory }
{
    match answer {
        Answer::Done | Answer::Bytes(_) => Ok(()),
        Answer::NoAnswer(address) => Err(LineError::Refused(Refusal::Bus(BusRefusal::NoAnswer(
            *address,
        )))),
        Answer::NoEnd => Err(LineError::Refused(Refusal::NoEnd)),
    }
}

/// The result of a line by a round's answer.
fn outcome_of_round(answer: &RoundReply) -> Result<(), LineError<Refusal>>
    ensures refused { Ends (λ refused. refused ≡ round_refusal answer.now) result }
    ensures fed { result ≢ Err LineError.Memory }
{
    match answer {
        RoundReply::Assigned(..) | RoundReply::Nobody | RoundReply::Done => Ok(()),
        RoundReply::NoAddress => Err(LineError::Refused(Refusal::Bus(BusRefusal::NoAddress))),
    }
}

/// The result of a `daa` by whether each device that heard its session has an address.
pub(crate) fn outcome_of_session(complete: bool) -> Result<(), LineError<Refusal>>
    ensures refused { Ends (λ refused. refused ≡ session_refusal complete) result }
    ensures fed { result ≢ Err LineError.Memory }
{
    if complete {
        Ok(())
    } else {
        Err(LineError::Refused(Refusal::Bus(BusRefusal::NoAddress)))
    }
}
