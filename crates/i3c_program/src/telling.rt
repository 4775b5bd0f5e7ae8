ghost use Rattle.std.specs.Prelude.{◌≡◌, ◌++◌, None, OnOk, Some, codes};
ghost use Rattle.serde_json.specs.Data.{Members};
ghost use Rattle.i3c_drive.specs.Steps.{news_of};
ghost use Rattle.i3c_json.specs.Objects.{aside_field, put_outcome, put_unmet, put_verdict};
ghost use Rattle.i3c_json.specs.Values.{text_data};
ghost use Rattle.i3c_program.specs.declared.reason.Reason.{Reason as ReasonValue};
ghost use Rattle.i3c_program.specs.Answers.{WritesLine, all_text, bare_object, due_text, end_text, put_end_of, put_reason, refused_line, reply_in, told_object, told_text, tried_text, unmet_text, waited_field, waited_text};
ghost use Rattle.i3c_script.specs.Printed.{pieces_text};

use crate::reason::Reason;
use i3c_drive::{first_added, news, push_last, push_news};
use i3c_every::Told;
use i3c_json::{Aside, Told as Object, Verdict, push_told};
use i3c_scene::Reply;
use i3c_script::{Listener, Piece, show_records_behind};
use i3c_text::Text;
use std::alloc::{AllocError, Global};

/// The reply in what a program is told.
pub(crate) fn reply_in(told: &Told<Reply>) -> &Reply
    ensures { result.now ≡ reply_in told.now }
{
    match told {
        Told::Answered(reply)
        | Told::Happened(reply)
        | Told::NothingLeft(reply)
        | Told::Marked(reply) => reply,
    }
}

/// Appends what a program is told, in lines; `changed` says whether those who ask have changed.
pub(crate) fn push_told_lines(
    number: u64,
    told: &Told<Reply>,
    changed: bool,
    text: &mut Text,
) -> Result<(), AllocError>
    ensures { OnOk result (text.new ≡ text.old ++ told_text number told.now (news_of changed (reply_in told.now).asking)) }
{
    let reply = reply_in(told);
    push_pieces(reply.pieces().as_slice(), text)?;
    show_records_behind(reply.added(), 0, reply.behind(), text)?;
    push_waited(told, text)?;
    push_news(changed, reply.asking(), text)?;
    push_end(number, reply, text)
}

/// Appends what a script prints of pieces.
fn push_pieces(pieces: &[Piece], text: &mut Text) -> Result<(), AllocError>
    ensures { OnOk result (text.new ≡ text.old ++ pieces_text pieces.now) }
{
    for index in 0..pieces.len() {
        text.hear(pieces[index])?;
    }
    Ok(())
}

/// Appends whether something happened, where the program waited.
fn push_waited(told: &Told<Reply>, text: &mut Text) -> Result<(), AllocError>
    ensures { OnOk result (text.new ≡ text.old ++ waited_text told.now) }
{
    match told {
        Told::Answered(_) | Told::Marked(_) => Ok(()),
        Told::Happened(_) => text.push(b"happened\n"),
        Told::NothingLeft(_) => text.push(b"nothing left\n"),
    }
}

/// Appends how a line with this reply ended.
fn push_end(number: u64, reply: &Reply, text: &mut Text) -> Result<(), AllocError>
    ensures { OnOk result (text.new ≡ text.old ++ end_text number reply.now) }
{
    match reply.unmet() {
        Some(line) => push_unmet(number, line, reply.there(), text),
        None => push_last(number, &reply.refused(), text),
    }
}

/// Appends the line that was due.
pub(crate) fn push_due(line: &[u8], text: &mut Text) -> Result<(), AllocError>
    ensures { OnOk result (text.new ≡ text.old ++ due_text line.now) }
{
    text.push(b"due ")?;
    text.push(line)?;
    text.end()
}

/// Appends that all orders were tried.
pub(crate) fn push_all(count: u64, text: &mut Text) -> Result<(), AllocError>
    ensures { OnOk result (text.new ≡ text.old ++ all_text count) }
{
    text.push(b"all ")?;
    text.push_decimal(count)?;
    text.push(b" orders\n")
}

/// Appends how many orders were tried, where not all are.
pub(crate) fn push_tried(count: u64, text: &mut Text) -> Result<(), AllocError>
    ensures { OnOk result (text.new ≡ text.old ++ tried_text count) }
{
    text.push(b"tried ")?;
    text.push_decimal(count)?;
    text.push(b" orders\n")
}

/// Appends that the line isn't done, for this reason.
pub(crate) fn push_refused(number: u64, reason: Reason, text: &mut Text) -> Result<(), AllocError>
    ensures { OnOk result (text.new ≡ text.old ++ refused_line number reason) }
{
    text.push(b"refused ")?;
    text.push_decimal(number)?;
    text.push(b" ")?;
    text.push(reason.name())?;
    text.end()
}

/// Appends which expectation doesn't hold, and what is there instead.
pub(crate) fn push_unmet(
    number: u64,
    line: u64,
    there: &[u8],
    text: &mut Text,
) -> Result<(), AllocError>
    ensures { OnOk result (text.new ≡ text.old ++ (unmet_text line there.now ++ refused_line number ReasonValue.Unmet)) }
{
    text.push(b"unmet ")?;
    text.push_decimal(line)?;
    text.push(b" ")?;
    text.push(there)?;
    text.end()?;
    push_refused(number, Reason::Unmet, text)
}

/// Appends the object that tells a program this; `changed` says whether those who ask have changed.
pub(crate) fn push_told_object(
    alloc: Global,
    number: u64,
    told: &Told<Reply>,
    changed: bool,
    text: &mut Text,
) -> Result<(), AllocError>
    ensures { OnOk result (WritesLine (told_object number told.now (news_of changed (reply_in told.now).asking)) text.old text.new) }
{
    let reply = reply_in(told);
    let object = Object {
        number,
        verdict: verdict_of(reply),
        pieces: reply.pieces().as_slice(),
        added: first_added(reply.added(), 0, reply.behind())?,
        asking: news(changed, reply.asking()),
        aside: aside_of(told),
    };
    push_told(alloc, &object, text)
}

/// How a line with this reply ended.
fn verdict_of(reply: &Reply) -> Verdict<'_>
    ensures { (members : Members) → put_verdict result members ≡ put_end_of reply.now reply.now.unmet members }
{
    match reply.unmet() {
        Some(line) => Verdict::Unmet(line, reply.there()),
        None => match reply.refused() {
            Some(why) => Verdict::Refused(why),
            None => Verdict::Done,
        },
    }
}

/// What is said besides of what a program is told.
fn aside_of<'a>(told: &Told<Reply>) -> Aside<'a>
    ensures { aside_field result ≡ waited_field told.now }
{
    match told {
        Told::Answered(_) | Told::Marked(_) => Aside::Nothing,
        Told::Happened(_) => Aside::Happened(true),
        Told::NothingLeft(_) => Aside::Happened(false),
    }
}

/// Appends the object of a line that was done, and says this besides.
pub(crate) fn push_aside(
    alloc: Global,
    number: u64,
    aside: Aside<'_>,
    text: &mut Text,
) -> Result<(), AllocError>
    ensures { OnOk result (WritesLine (bare_object number (put_outcome None) (aside_field aside.entry)) text.old text.new) }
{
    let object = Object {
        number,
        verdict: Verdict::Done,
        pieces: &[],
        added: None,
        asking: None,
        aside,
    };
    push_told(alloc, &object, text)
}

/// Appends the object of a line that isn't done, for this reason.
pub(crate) fn push_reason(
    alloc: Global,
    number: u64,
    reason: Reason,
    text: &mut Text,
) -> Result<(), AllocError>
    ensures { OnOk result (WritesLine (bare_object number (put_reason reason) None) text.old text.new) }
{
    let object = Object {
        number,
        verdict: Verdict::Named(reason.name()),
        pieces: &[],
        added: None,
        asking: None,
        aside: Aside::Nothing,
    };
    push_told(alloc, &object, text)
}

/// Appends the object of a line that differs, with the one that was due.
pub(crate) fn push_differs(
    alloc: Global,
    number: u64,
    due: &[u8],
    text: &mut Text,
) -> Result<(), AllocError>
    ensures { OnOk result (WritesLine (bare_object number (put_reason ReasonValue.Differs) (Some (codes "due", text_data due.now))) text.old text.new) }
{
    let object = Object {
        number,
        verdict: Verdict::Named(Reason::Differs.name()),
        pieces: &[],
        added: None,
        asking: None,
        aside: Aside::Due(due),
    };
    push_told(alloc, &object, text)
}

/// Appends the object that says which expectation doesn't hold, and what is there instead.
pub(crate) fn push_unmet_object(
    alloc: Global,
    number: u64,
    line: u64,
    there: &[u8],
    text: &mut Text,
) -> Result<(), AllocError>
    ensures { OnOk result (WritesLine (bare_object number (put_unmet line there.now) None) text.old text.new) }
{
    let object = Object {
        number,
        verdict: Verdict::Unmet(line, there),
        pieces: &[],
        added: None,
        asking: None,
        aside: Aside::Nothing,
    };
    push_told(alloc, &object, text)
}
