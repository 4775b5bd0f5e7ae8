ghost use Rattle.std.specs.Prelude.{◌≡◌, ℕ, List, None, MatchOption};
ghost use Rattle.i3c_lines.specs.Faults.{IsAmong, IsFactsWord};
ghost use Rattle.i3c_lines.specs.Parsing.{left_tokens};
ghost use Rattle.i3c_facts.specs.MarkFaults.{BeginsMark, IsMarkFault, IsMarkWord, IsPlainWord, IsWordFault};

use crate::fact_forms::{is_begun, is_whole};
use i3c_lines::tokens::{Tokens, is_token};
use i3c_lines::{Field, FormFault, misfit_behind};

/// Why a line that begins as a mark isn't one: its first word that is wrong, or that a word is missing. It is meant for lines
/// that aren't marks; of a whole mark it says that a word is missing, or that the line is unknown.
pub fn mark_fault(line: &[u8]) -> Option<FormFault<'_>>
    ensures { MatchOption result (BeginsMark line.now → ⊥) (λ fault. IsMarkFault line.now fault) }
{
    let mut tokens = Tokens::of(line);
    let Some(first) = tokens.next() else {
        return None;
    };
    word_fault(first, &mut tokens)
}

/// The same of the tokens behind the first.
fn word_fault<'a>(first: &'a [u8], tokens: &mut Tokens<'a>) -> Option<FormFault<'a>>
    ensures { MatchOption result (IsMarkWord first.now → ⊥) (λ fault. IsWordFault first.now (left_tokens tokens.old) fault) }
{
    if is_token(first, b"expect") {
        return Some(facts_fault(first, tokens));
    }
    if is_token(first, b"always") {
        return Some(facts_fault(first, tokens));
    }
    match plain_fields(first) {
        Some(fields) => Some(misfit_behind(first, fields, tokens)),
        None => None,
    }
}

/// The fields of a mark without facts, by its first token.
fn plain_fields(first: &[u8]) -> Option<&'static [Field]>
    ensures { result ≡ None → IsPlainWord first.now → ⊥ }
{
    if is_token(first, b"anywhere") {
        return Some(&[Field::Name]);
    }
    if is_token(first, b"any") {
        return Some(&[]);
    }
    if is_token(first, b"track") {
        return Some(&[]);
    }
    if is_token(first, b"close") {
        return Some(&[]);
    }
    None
}

/// The first of a mark's facts that isn't whole, or its first token that is no word of a fact.
fn facts_fault<'a>(first: &'a [u8], tokens: &mut Tokens<'a>) -> FormFault<'a>
    requires { IsFactsWord first.now }
    ensures { IsWordFault first.now (left_tokens tokens.old) result }
{
    // from the fact's first token on, of which so many were read
    let mut fact = *tokens;
    let mut count: usize = 0;
    let mut negated = false;
    while let Some(token) = tokens.next() {
        if is_token(token, b"or") {
            if !is_whole(fact, count) {
                return FormFault::MissingFact;
            }
            fact = *tokens;
            count = 0;
            negated = false;
        } else if is_token(token, b"not") && count == 0 && !negated {
            fact = *tokens;
            negated = true;
        } else {
            count = count.saturating_add(1);
            if !is_begun(fact, count) {
                return wrong_word(token);
            }
        }
    }
    FormFault::MissingFact
}

/// A token that is no word of a fact.
fn wrong_word(token: &[u8]) -> FormFault<'_>
    ensures { (first : List ℕ) (rest : List (List ℕ)) → IsFactsWord first → IsAmong token.now rest → IsWordFault first rest result }
{
    if !token.is_empty() {
        return FormFault::NoFact(token);
    }
    FormFault::TwoSpaces
}
