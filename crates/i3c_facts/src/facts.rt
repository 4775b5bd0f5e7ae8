ghost use Rattle.std.specs.Prelude.{◌≡◌, ◌<◌, ◌∷◌, IfOk, IfSome, length, option_copied, true};
ghost use Rattle.i3c_facts.specs.Forms.{AreFacts, IsClaim, parts, parts_left, texts};
ghost use Rattle.i3c_facts.specs.Reading.{Extends};
ghost use Rattle.i3c_lines.specs.Parsing.{Reads};

use crate::fact::Fact;
use crate::fact_tokens::{NOT, read_fact};
use i3c_lines::Refusal;
use i3c_lines::tokens::is_token;
use i3c_step::Refusal as BusRefusal;
use std::alloc::{AllocError, Global};
use std::marker::Model;

/// What parts the claims of a line.
const OR: &[u8] = b"or";

/// A fact that is claimed to hold, or, where it is negated, not to hold.
#[derive(Clone, Copy)]
pub struct Claim {
    /// The fact that the claim is about.
    pub fact: Fact,
    /// Whether it is claimed not to hold.
    pub negated: bool,
}

/// Claims, one of which has to hold. Clauses see the claims.
#[derive(Drop)]
pub struct Facts {
    pub(crate) claims: Vec<Claim>,
}

impl Model for Facts {
    ghost use Rattle.std.specs.Prelude.{List};
    ghost use Rattle.i3c_facts.specs.declared.facts.Claim.{Claim};

    ghost Value = { List Claim };

    ghost view = { λ facts. facts.claims.items };
}

impl Facts {
    ghost use Rattle.std.specs.Prelude.{◌≡◌, IfOk};

    /// The claims in the order of the line: at least one.
    pub fn claims(&self) -> &[Claim]
        ensures { result.now ≡ self.now }
    {
        self.claims.as_slice()
    }

    /// The same claims once more.
    ///
    /// # Errors
    ///
    /// There is no memory for them.
    pub fn copied(&self) -> Result<Facts, AllocError>
        ensures { IfOk result (λ copy. copy ≡ self.now) }
    {
        let claims = self.claims.clone()?;
        Ok(Facts { claims })
    }
}

/// The facts that some tokens say, if they have their form.
pub(crate) fn read_facts(alloc: Global, tokens: &[&[u8]]) -> Result<Option<Facts>, AllocError>
    ensures { IfOk result (Reads AreFacts (texts tokens.now)) }
{
    let mut claims = Vec::new(alloc);
    match read_claims(tokens, &mut claims)? {
        Some(()) => Ok(Some(Facts { claims })),
        None => Ok(None),
    }
}

/// Appends the claims that some tokens make, if they have their form.
fn read_claims(tokens: &[&[u8]], claims: &mut Vec<Claim>) -> Result<Option<()>, AllocError>
    ensures { IfOk result (Extends (parts (texts tokens.now)) claims.old.items claims.new.items) }
{
    // names types that the check doesn't find by itself
    let _parts: (Option<Fact>, Option<Refusal>, Option<BusRefusal>) = (None, None, None);
    let (first, rest) = split_or(tokens);
    let Some(claim) = read_claim(first) else {
        return Ok(None);
    };
    claims.push(claim)?;
    match rest {
        Some(rest) => read_claims(rest, claims),
        None => Ok(Some(())),
    }
}

/// The tokens before the first `or`, and those behind it if there is one.
fn split_or<'a, 'b>(tokens: &'a [&'b [u8]]) -> (&'a [&'b [u8]], Option<&'a [&'b [u8]]>)
    ensures parts { parts (texts tokens.entry.now) ≡ texts result.0.now ∷ parts_left (option_copied result.1) }
    ensures shorter { IfSome result.1 (λ rest. length rest.now < length tokens.entry.now) }
{
    for at in 0..tokens.len() {
        if is_token(tokens[at], OR) {
            return (&tokens[..at], Some(&tokens[at + 1..]));
        }
    }
    (tokens, None)
}

/// The claim that some tokens make, if they have its form.
fn read_claim(tokens: &[&[u8]]) -> Option<Claim>
    ensures { Reads IsClaim (texts tokens.now) result }
{
    if let Some(fact) = read_negated(tokens) {
        let negated = true;
        return Some(Claim { fact, negated });
    }
    let fact = read_fact(tokens)?;
    let negated = false;
    Some(Claim { fact, negated })
}

/// The fact behind `not`, if the tokens have this form.
fn read_negated(tokens: &[&[u8]]) -> Option<Fact>
    ensures { Reads (λ tokens fact. IsClaim tokens (record { fact = fact; negated = true })) (texts tokens.now) result }
{
    let (first, rest) = tokens.split_first()?;
    if is_token(first, NOT) {
        read_fact(rest)
    } else {
        None
    }
}
