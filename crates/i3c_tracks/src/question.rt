ghost use Rattle.std.specs.Prelude.{◌≡◌, ◌↔◌, IfOk, IfSome, IsTrue, MatchOption, List, option_copied};
ghost use Rattle.i3c_facts.specs.declared.facts.Claim.{Claim as ClaimValue};
ghost use Rattle.i3c_facts.specs.declared.marks.Mark.{Mark as MarkValue};
ghost use Rattle.i3c_tracks.specs.Questions.{AreBehind, AreGiven, AreOfEnds, Gives, IsGiven, is_given, is_of_line};

use i3c_facts::{Claim, Fact, Facts, Mark, read_mark};
use i3c_lines::{Name, read_line};
use i3c_scene::{Expectation, Line, Risk};
use std::alloc::{AllocError, Global};

/// What stands before facts where they are expected.
const EXPECT: &[u8] = b"expect ";

/// Facts by which ends are grouped, with their text.
#[derive(Drop)]
pub struct Question {
    pub(crate) text: Vec<u8>,
    pub(crate) facts: Facts,
}

impl Question {
    ghost use Rattle.std.specs.Prelude.{◌≡◌, ◌↔◌, IfOk, IsTrue, List, MatchOption};
    ghost use Rattle.i3c_facts.specs.declared.facts.Claim.{Claim as ClaimValue};
    ghost use Rattle.i3c_tracks.specs.Planning.{step_of};
    ghost use Rattle.i3c_tracks.specs.Questions.{AreAsked, AreGiven, IsQuestion, asking};

    /// The question of a text that may stand behind `expect`, unless one of its facts is about the line before: an end has none.
    ///
    /// # Errors
    ///
    /// There is no memory for it.
    pub fn of(alloc: Global, text: &[u8]) -> Result<Option<Question>, AllocError>
        ensures { IfOk result (λ read. MatchOption read ((claims : List ClaimValue) → AreAsked text.now claims → ⊥) (IsQuestion text.now)) }
    {
        let Some(facts) = facts_behind(alloc, text)? else {
            return Ok(None);
        };
        if !are_of_ends(facts.claims()) {
            return Ok(None);
        }
        let text = copied(alloc, text)?;
        Ok(Some(Question { text, facts }))
    }

    /// Whether each of its names is given by a line of the file.
    pub(crate) fn is_of(&self, lines: &[Vec<u8>]) -> bool
        ensures { IsTrue result ↔ AreGiven lines.now self.now.facts }
    {
        are_given(lines, self.facts.claims())
    }

    /// A line that does nothing, and expects what is asked.
    ///
    /// # Errors
    ///
    /// There is no memory for it.
    pub(crate) fn line(&self, alloc: Global) -> Result<Line, AllocError>
        ensures { IfOk result (λ line. step_of line ≡ asking self.now) }
    {
        let facts = self.facts.copied()?;
        let mut expectations = Vec::new(alloc);
        expectations.push(Expectation::of_line(0, facts))?;
        Ok(Line {
            number: 0,
            command: None,
            risk: Risk::Nobody,
            expectations,
        })
    }
}

/// A copy of a text.
fn copied(alloc: Global, text: &[u8]) -> Result<Vec<u8>, AllocError>
    ensures { IfOk result (λ copy. copy.items ≡ text.now) }
{
    let mut copy = Vec::new(alloc);
    copy.extend_from_slice(text)?;
    Ok(copy)
}

/// The facts of a text, if it may stand behind `expect`.
fn facts_behind(alloc: Global, text: &[u8]) -> Result<Option<Facts>, AllocError>
    ensures { IfOk result (λ read. MatchOption read ((claims : List ClaimValue) → AreBehind text.now claims → ⊥) (AreBehind text.now)) }
{
    let mut line = copied(alloc, EXPECT)?;
    line.extend_from_slice(text)?;
    let Some(mark) = read_mark(alloc, &line)? else {
        return Ok(None);
    };
    Ok(expected(mark))
}

/// The facts that a mark expects, if it is `expect`.
fn expected(mark: Mark) -> Option<Facts>
    ensures { MatchOption result ((claims : List ClaimValue) → mark ≡ MarkValue.Expect claims → ⊥) (λ claims. mark ≡ MarkValue.Expect claims) }
{
    match mark {
        Mark::Expect(facts) => Some(facts),
        _ => None,
    }
}

/// Whether no claim is about the line before.
fn are_of_ends(claims: &[Claim]) -> bool
    ensures { IsTrue result ↔ AreOfEnds claims.now }
{
    for index in 0..claims.len() {
        if is_of_line(&claims[index].fact) {
            return false;
        }
    }
    true
}

/// Whether a fact is about the line before.
fn is_of_line(fact: &Fact) -> bool
    ensures { result ≡ is_of_line fact.now }
{
    matches!(
        fact,
        Fact::Done | Fact::Refused(_) | Fact::AnyRefused | Fact::Served(_) | Fact::Bytes(_)
    )
}

/// Whether each name of some claims is given by a line of the file.
fn are_given(lines: &[Vec<u8>], claims: &[Claim]) -> bool
    ensures { IsTrue result ↔ AreGiven lines.now claims.now }
{
    for index in 0..claims.len() {
        if !is_known(lines, claims[index].fact.name()) {
            return false;
        }
    }
    true
}

/// Whether a name is given by a line of the file, if it is there.
fn is_known(lines: &[Vec<u8>], name: Option<&Name>) -> bool
    ensures { IsTrue result ↔ IfSome (option_copied name.entry) (IsGiven lines.now) }
{
    match name {
        Some(name) => is_in(lines, name),
        None => true,
    }
}

/// Whether a line of the file gives this name.
fn is_in(lines: &[Vec<u8>], name: &Name) -> bool
    ensures { IsTrue result ↔ IsGiven lines.now name.now }
{
    for index in 0..lines.len() {
        if gives(lines[index].as_slice(), name) {
            return true;
        }
    }
    false
}

/// Whether a line gives this name.
fn gives(line: &[u8], name: &Name) -> bool
    ensures { IsTrue result ↔ Gives line.now name.now }
{
    match read_line(line) {
        Ok(Some(command)) => is_given(command.name_given(), name),
        Ok(None) => false,
        Err(_) => false,
    }
}

/// Whether this name is given.
fn is_given(given: Option<Name>, name: &Name) -> bool
    ensures { result ≡ is_given given name.now }
{
    match given {
        Some(given) => given == *name,
        None => false,
    }
}
