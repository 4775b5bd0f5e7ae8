ghost use Rattle.std.specs.Prelude.{◌≡◌, true, MatchResult};
ghost use Rattle.i3c_step.specs.declared.replies.Refusal.{Refusal as RefusalValue};
ghost use Rattle.i3c_step.specs.declared.replies.Reply.{Reply as ReplyValue};
ghost use Rattle.i3c_shared.specs.declared.faults.DropFault.{DropFault as DropFaultValue};
ghost use Rattle.i3c_shared.specs.Calls.{left_reply};
ghost use Rattle.i3c_shared.specs.Replying.{IsUnhanded, is_ask_reply, is_attach_reply, is_drop_reply, is_end_reply, is_hand_reply, is_no_answer, is_open_reply, is_round_reply};

use crate::faults::{DropFault, HandOverFault, Left};
use i3c_base::{Answer, RoundReply, Served};
use i3c_step::{Refusal, Reply, SlotTaken};

/// Turns the reply to an attachment into the call's result.
pub(crate) fn attached(reply: Reply) -> Result<(), SlotTaken>
    requires { is_attach_reply reply ≡ true }
    ensures { MatchResult result (λ _. reply ≡ ReplyValue.Attached) (λ _. reply ≡ ReplyValue.Refused RefusalValue.SlotTaken) }
{
    match reply {
        Reply::Attached => Ok(()),
        Reply::Refused(Refusal::SlotTaken) => Err(SlotTaken),
        _ => unreachable!(),
    }
}

/// Turns the reply to a drop-off into the call's result.
pub(crate) fn dropped(reply: Reply) -> Result<Left, DropFault>
    requires { is_drop_reply reply ≡ true }
    ensures { MatchResult result (λ left. reply ≡ left_reply left) (λ why. (why ≡ DropFaultValue.ActiveStays) × (reply ≡ ReplyValue.Refused RefusalValue.ActiveStays)) }
{
    match reply {
        Reply::Dropped => Ok(Left::Now),
        Reply::Refused(Refusal::NoDevice) => Ok(Left::WasGone),
        Reply::Refused(Refusal::ActiveStays) => Err(DropFault::ActiveStays),
        _ => unreachable!(),
    }
}

/// Turns the reply to a wish into the call's result.
pub(crate) fn asked(reply: Reply) -> Result<(), Refusal>
    requires { is_ask_reply reply ≡ true }
    ensures { MatchResult result (λ _. reply ≡ ReplyValue.Asked) (λ why. reply ≡ ReplyValue.Refused why) }
{
    match reply {
        Reply::Asked => Ok(()),
        Reply::Refused(why) => Err(why),
        _ => unreachable!(),
    }
}

/// Turns the reply to the opening of a session into the call's result.
pub(crate) fn opened(reply: Reply) -> Result<Served, Refusal>
    requires { is_open_reply reply ≡ true }
    ensures { MatchResult result (λ served. reply ≡ ReplyValue.Opened served) (λ why. reply ≡ ReplyValue.Refused why) }
{
    match reply {
        Reply::Opened(served) => Ok(served),
        Reply::Refused(why) => Err(why),
        _ => unreachable!(),
    }
}

/// Turns the reply to a round into the call's result.
pub(crate) fn rounded(reply: Reply) -> Result<RoundReply, Refusal>
    requires { is_round_reply reply ≡ true }
    ensures { MatchResult result (λ answer. reply ≡ ReplyValue.Round answer) (λ why. reply ≡ ReplyValue.Refused why) }
{
    match reply {
        Reply::Round(answer) => Ok(answer),
        Reply::Refused(why) => Err(why),
        _ => unreachable!(),
    }
}

/// Turns the reply to the end of a session into the call's result.
pub(crate) fn ended(reply: Reply) -> Result<(), Refusal>
    requires { is_end_reply reply ≡ true }
    ensures { MatchResult result (λ _. reply ≡ ReplyValue.Ended) (λ why. reply ≡ ReplyValue.Refused why) }
{
    match reply {
        Reply::Ended => Ok(()),
        Reply::Refused(why) => Err(why),
        _ => unreachable!(),
    }
}

/// Turns the reply to a handover into the call's result.
pub(crate) fn handed(reply: Reply) -> Result<Served, HandOverFault>
    requires { is_hand_reply reply ≡ true }
    ensures { MatchResult result (λ served. reply ≡ ReplyValue.Handed served) (λ why. IsUnhanded why reply) }
{
    match reply {
        Reply::Handed(served) => Ok(served),
        Reply::Refused(why) => Err(HandOverFault::Refused(why)),
        Reply::Framed(framed) => Err(unanswered(framed.served, framed.answer)),
        _ => unreachable!(),
    }
}

/// The fault that an offer is which nobody answered.
fn unanswered(served: Served, answer: Answer) -> HandOverFault
    requires { is_no_answer answer ≡ true }
    ensures { IsUnhanded result (ReplyValue.Framed (record { served = served; answer = answer })) }
{
    match answer {
        Answer::NoAnswer(address) => HandOverFault::NoAnswer(served, address),
        _ => unreachable!(),
    }
}
