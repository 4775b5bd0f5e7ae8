ghost use Rattle.std.specs.Prelude.{◌≡◌, ◌↔◌, ◌⊎◌, IsTrue, MatchOption};
ghost use Rattle.i3c_lines.specs.Forms.{AreExcepted, IsPolicyBut};
ghost use Rattle.i3c_lines.specs.Parsing.{AcceptsUntilBut, GoOn, Reads, TakesPolicy, left_tokens};
ghost use Rattle.i3c_lines.specs.Policies.{AcceptEach, Accepts, IsAlone, IsPolicy, each_kind};
ghost use Rattle.i3c_base.specs.declared.requests.Fixed.{Fixed};
ghost use Rattle.i3c_base.specs.declared.requests.Verdict.TheVariants.{Accept, Refuse};

use crate::names::Name;
use crate::tokens::{Tokens, is_token};
use arrayvec::ArrayVec;
use i3c_base::{Fixed, Verdict};

/// How many devices a policy may except.
pub const EXCEPTED: usize = 8;

/// Each request is accepted, as at the start of a script.
pub const ACCEPT_ALL: Fixed = Fixed {
    join: Verdict::Accept,
    role: Verdict::Accept,
    interrupt: Verdict::Accept,
};

/// Each request is turned down.
pub(crate) const REFUSE_ALL: Fixed = Fixed {
    join: Verdict::Refuse,
    role: Verdict::Refuse,
    interrupt: Verdict::Refuse,
};

pub(crate) const ALL: &[u8] = b"all";

const NONE: &[u8] = b"none";

const JOINS: &[u8] = b"joins";

const ROLES: &[u8] = b"roles";

const INTERRUPTS: &[u8] = b"interrupts";

/// The token in front of the names that a policy excepts.
pub(crate) const BUT: &[u8] = b"but";

/// The policy that tokens name: `all` or `none` alone, or the kinds of requests that alone are accepted, each once.
pub(crate) fn policy(tokens: &mut Tokens<'_>) -> Option<Fixed>
    ensures { Reads IsPolicy (left_tokens tokens.old) result }
{
    let first = tokens.next()?;
    match alone(first) {
        Some(policy) => {
            tokens.end()?;
            Some(policy)
        }
        None => accept_each(accept(REFUSE_ALL, first)?, tokens),
    }
}

/// The policy that tokens name in front of the first `but`, and the names behind it.
pub(crate) fn policy_but(tokens: &mut Tokens<'_>) -> Option<(Fixed, ArrayVec<Name, EXCEPTED>)>
    ensures { Reads (λ tokens parts. IsPolicyBut tokens parts.0 parts.1.items) (left_tokens tokens.old) result }
{
    let kinds = policy_before_but(tokens)?;
    let names = excepted(tokens)?;
    Some((kinds, names))
}

/// The policy that tokens name in front of the first `but`, which accepts some kind.
fn policy_before_but(tokens: &mut Tokens<'_>) -> Option<Fixed>
    ensures { TakesPolicy (left_tokens tokens.old) (left_tokens tokens.new) result }
{
    let first = tokens.next()?;
    if is_token(first, ALL) {
        return accept_until_but(ACCEPT_ALL, tokens);
    }
    let policy = accept(REFUSE_ALL, first)?;
    accept_until_but(policy, tokens)
}

/// A policy that accepts the kinds of more tokens as well, up to the first `but`.
fn accept_until_but(policy: Fixed, tokens: &mut Tokens<'_>) -> Option<Fixed>
    ensures { AcceptsUntilBut policy (left_tokens tokens.old) (left_tokens tokens.new) result }
{
    let token = tokens.next()?;
    if is_token(token, BUT) {
        return Some(policy);
    }
    let next = accept(policy, token)?;
    accept_until_but(next, tokens)
}

/// The names of the devices that a policy excepts, each once.
fn excepted(tokens: &mut Tokens<'_>) -> Option<ArrayVec<Name, EXCEPTED>>
    ensures { Reads (λ tokens names. AreExcepted tokens names.items) (left_tokens tokens.old) result }
{
    let mut names = ArrayVec::new();
    push_names(tokens, &mut names)?;
    match names.len() {
        0 => None,
        _ => Some(names),
    }
}

/// Appends the names of more tokens, as long as there is a place and none comes twice.
fn push_names(tokens: &mut Tokens<'_>, names: &mut ArrayVec<Name, EXCEPTED>) -> Option<()>
    ensures { GoOn (left_tokens tokens.old) names.old.items names.new.items result }
{
    let Some(token) = tokens.next() else {
        return Some(());
    };
    let name = Name::parse(token)?;
    if names.is_full() || names.contains(&name) {
        return None;
    }
    names.push(name);
    push_names(tokens, names)
}

/// The policy that a single token says, `all` or `none`.
pub(crate) fn alone(token: &[u8]) -> Option<Fixed>
    ensures { MatchOption result ((policy : Fixed) → IsAlone token.now policy → ⊥) (λ policy. IsAlone token.now policy) }
{
    if is_token(token, ALL) {
        return Some(ACCEPT_ALL);
    }
    if is_token(token, NONE) {
        return Some(REFUSE_ALL);
    }
    None
}

/// A policy that accepts the kinds of more tokens as well.
fn accept_each(policy: Fixed, tokens: &mut Tokens<'_>) -> Option<Fixed>
    ensures { Reads (λ tokens new. AcceptEach tokens policy new) (left_tokens tokens.old) result }
{
    let Some(token) = tokens.next() else {
        return Some(policy);
    };
    let next = accept(policy, token)?;
    accept_each(next, tokens)
}

/// The policy that also accepts a token's kind, unless it did already.
pub(crate) fn accept(policy: Fixed, token: &[u8]) -> Option<Fixed>
    ensures { MatchOption result ((next : Fixed) → Accepts token.now policy next → ⊥) (λ next. Accepts token.now policy next) }
{
    if is_token(token, JOINS) {
        let join = accept_once(policy.join)?;
        return Some(Fixed { join, ..policy });
    }
    if is_token(token, ROLES) {
        let role = accept_once(policy.role)?;
        return Some(Fixed { role, ..policy });
    }
    if is_token(token, INTERRUPTS) {
        let interrupt = accept_once(policy.interrupt)?;
        return Some(Fixed {
            interrupt,
            ..policy
        });
    }
    None
}

/// A verdict that accepts, in place of one that doesn't.
fn accept_once(verdict: Verdict) -> Option<Verdict>
    ensures { MatchOption result (verdict ≡ Accept) (λ accept. (accept ≡ Accept) × (verdict ≡ Refuse)) }
{
    match verdict {
        Verdict::Refuse => Some(Verdict::Accept),
        Verdict::Accept => None,
    }
}

/// Whether a token names a kind of request.
pub(crate) fn is_kind(token: &[u8]) -> bool
    ensures { IsTrue result ↔ ((policy : Fixed) × Accepts token.now (each_kind Refuse) policy) }
{
    match accept(REFUSE_ALL, token) {
        Some(_) => true,
        None => false,
    }
}

/// Whether a token can be the first of a policy's.
pub(crate) fn is_first(token: &[u8]) -> bool
    ensures { IsTrue result ↔ ((policy : Fixed) × (IsAlone token.now policy ⊎ Accepts token.now (each_kind Refuse) policy)) }
{
    match alone(token) {
        Some(_) => true,
        None => is_kind(token),
    }
}
