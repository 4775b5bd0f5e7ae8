ghost use Rattle.std.specs.Prelude.{◌≡◌, ◌++◌, OnOk, bytes_eq, map};
ghost use Rattle.std.specs.Char.{is_ascii_hexdigit, to_ascii_uppercase};
ghost use Rattle.std.specs.List.{list_all};
ghost use Rattle.i3c_lines.specs.Capitals.{capital_args, capital_token, has_name, in_capitals};
ghost use Rattle.i3c_lines.specs.Parsing.{left_tokens};
ghost use Rattle.i3c_lines.specs.Printing.{behind};

use crate::tokens::Tokens;
use i3c_text::Text;
use std::alloc::AllocError;

/// Appends a line with its hexadecimal digits in capitals: each token that has only hexadecimal digits, except for the first
/// one and a name.
pub fn push_capitals(line: &[u8], text: &mut Text) -> Result<(), AllocError>
    ensures { OnOk result (text.new ≡ text.old ++ in_capitals line.now) }
{
    let mut tokens = Tokens::of(line);
    let Some(first) = tokens.next() else {
        unreachable!()
    };
    text.push(first)?;
    push_args(has_name(first), &mut tokens, text)
}

/// Appends the tokens behind a first one in capitals, except for a name, each behind a space.
fn push_args(named: bool, tokens: &mut Tokens<'_>, text: &mut Text) -> Result<(), AllocError>
    ensures { OnOk result (text.new ≡ text.old ++ behind (capital_args named (left_tokens tokens.old))) }
{
    if !named {
        return push_tokens(tokens, text);
    }
    let Some(name) = tokens.next() else {
        return Ok(());
    };
    text.push(b" ")?;
    text.push(name)?;
    push_tokens(tokens, text)
}

/// Appends tokens in capitals, each behind a space.
fn push_tokens(tokens: &mut Tokens<'_>, text: &mut Text) -> Result<(), AllocError>
    ensures { OnOk result (text.new ≡ text.old ++ behind (map capital_token (left_tokens tokens.old))) }
{
    let Some(token) = tokens.next() else {
        return Ok(());
    };
    text.push(b" ")?;
    push_capital(token, text)?;
    push_tokens(tokens, text)
}

/// Appends a token, in capitals if it is of hexadecimal digits alone.
fn push_capital(token: &[u8], text: &mut Text) -> Result<(), AllocError>
    ensures { OnOk result (text.new ≡ text.old ++ capital_token token.now) }
{
    if is_hexadecimal(token) {
        push_uppercase(token, text)
    } else {
        text.push(token)
    }
}

/// Whether a token is of hexadecimal digits alone, with small letters or capitals.
fn is_hexadecimal(token: &[u8]) -> bool
    ensures { result ≡ list_all is_ascii_hexdigit token.now }
{
    token.iter().all(|byte| byte.is_ascii_hexdigit())
}

/// Appends letters as capitals, and other bytes as they are.
fn push_uppercase(token: &[u8], text: &mut Text) -> Result<(), AllocError>
    ensures { OnOk result (text.new ≡ text.old ++ map to_ascii_uppercase token.now) }
{
    let Some((byte, rest)) = token.split_first() else {
        return Ok(());
    };
    text.push(&[byte.to_ascii_uppercase()])?;
    push_uppercase(rest, text)
}

/// Whether a name follows this first token.
fn has_name(token: &[u8]) -> bool
    ensures { result ≡ has_name token.now }
{
    is(token, b"legacy")
        || is(token, b"main")
        || is(token, b"attach")
        || is(token, b"drop")
        || is(token, b"raise")
        || is(token, b"ask-join")
        || is(token, b"ask-role")
        || is(token, b"cut")
        || is(token, b"as")
}

/// Whether a token is this one.
pub(crate) fn is(token: &[u8], other: &[u8]) -> bool
    ensures { result ≡ bytes_eq token.now other.now }
{
    token == other
}
