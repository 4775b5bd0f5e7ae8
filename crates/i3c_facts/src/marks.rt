ghost use Rattle.std.specs.Prelude.{◌≡◌, ◌∷◌, ◌==◌, [], IfOk, MatchOption, codes, map};
ghost use Rattle.i3c_facts.specs.Forms.{IsMark, IsMarkForm, IsPlainForm, texts};
ghost use Rattle.i3c_lines.specs.Forms.{tokens_of};
ghost use Rattle.i3c_lines.specs.Parsing.{Reads};

use crate::facts::{Facts, read_facts};
use i3c_lines::Name;
use i3c_lines::tokens::is_token;
use std::alloc::{AllocError, Global};

/// How many bytes a line may have, without its line feed.
const LINE_LENGTH: usize = 256;

/// What parts the tokens of a line.
const SPACE: u8 = b' ';

const ALWAYS: &[u8] = b"always";

const ANY: &[u8] = b"any";

const ANYWHERE: &[u8] = b"anywhere";

const CLOSE: &[u8] = b"close";

const EXPECT: &[u8] = b"expect";

const TRACK: &[u8] = b"track";

/// What a line says that is no command: what may overlap, and what has to hold.
#[derive(Drop)]
pub enum Mark {
    /// `any`: a block begins, whose tracks happen in any interleaving.
    Any,
    /// `anywhere NAME`: the device may lose power in each frame of the block.
    Anywhere(Name),
    /// `always FACTS`: the facts have to hold after each line of the block.
    Always(Facts),
    /// `track`: the block's next track begins.
    Track,
    /// `close`: the block ends.
    Close,
    /// `expect FACTS`: the facts have to hold here.
    Expect(Facts),
}

/// The mark of a line, if the line has a mark's form.
///
/// # Errors
///
/// There is no memory for its facts.
pub fn read_mark(alloc: Global, line: &[u8]) -> Result<Option<Mark>, AllocError>
    ensures { IfOk result (λ read. MatchOption read ((mark : Mark) → IsMark line.now mark → ⊥) (λ mark. IsMark line.now mark)) }
{
    if line.len() > LINE_LENGTH {
        return Ok(None);
    }
    let tokens = split_tokens(alloc, line)?;
    mark_of(alloc, tokens.as_slice())
}

/// The tokens of a line, which are parted by exactly one space.
fn split_tokens(alloc: Global, line: &[u8]) -> Result<Vec<&[u8]>, AllocError>
    ensures { IfOk result (λ tokens. texts tokens.items ≡ tokens_of line.now) }
{
    let mut tokens = Vec::new(alloc);
    // room for all of them at once, so that a refusal is told, where `collect` would do with less
    tokens.reserve(line.len() + 1)?;
    tokens.extend(line.split(|byte| *byte == SPACE))?;
    Ok(tokens)
}

/// The mark that some tokens are, if they have its form.
fn mark_of(alloc: Global, tokens: &[&[u8]]) -> Result<Option<Mark>, AllocError>
    ensures { IfOk result (Reads IsMarkForm (texts tokens.now)) }
{
    let Some((first, rest)) = tokens.split_first() else {
        return Ok(None);
    };
    if is_token(first, ALWAYS) {
        return read_always(alloc, rest);
    }
    if is_token(first, EXPECT) {
        return read_expect(alloc, rest);
    }
    Ok(plain_mark(first, rest))
}

/// The mark without facts that some tokens are, if they have its form.
fn plain_mark(first: &[u8], rest: &[&[u8]]) -> Option<Mark>
    ensures { Reads IsPlainForm (first.now ∷ texts rest.now) result }
{
    match rest {
        [] => mark_alone(first),
        [token] if is_token(first, ANYWHERE) => read_anywhere(token),
        _ => None,
    }
}

/// The mark of one token.
fn mark_alone(token: &[u8]) -> Option<Mark>
    ensures { Reads IsPlainForm (token.now ∷ []) result }
{
    if is_token(token, ANY) {
        return Some(Mark::Any);
    }
    if is_token(token, TRACK) {
        return Some(Mark::Track);
    }
    if is_token(token, CLOSE) {
        return Some(Mark::Close);
    }
    None
}

/// `anywhere`, by its name.
fn read_anywhere(token: &[u8]) -> Option<Mark>
    ensures { Reads IsPlainForm (codes "anywhere" ∷ token.now ∷ []) result }
{
    let name = Name::parse(token)?;
    Some(Mark::Anywhere(name))
}

/// `always`, by its facts.
fn read_always(alloc: Global, rest: &[&[u8]]) -> Result<Option<Mark>, AllocError>
    ensures { IfOk result (Reads IsMarkForm (codes "always" ∷ texts rest.now)) }
{
    match read_facts(alloc, rest)? {
        Some(facts) => Ok(Some(Mark::Always(facts))),
        None => Ok(None),
    }
}

/// `expect`, by its facts.
fn read_expect(alloc: Global, rest: &[&[u8]]) -> Result<Option<Mark>, AllocError>
    ensures { IfOk result (Reads IsMarkForm (codes "expect" ∷ texts rest.now)) }
{
    match read_facts(alloc, rest)? {
        Some(facts) => Ok(Some(Mark::Expect(facts))),
        None => Ok(None),
    }
}
