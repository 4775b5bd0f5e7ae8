use crate::fact_tokens::written_bytes;
use crate::reasons::{plain_reason, reason_at};
use i3c_lines::Name;
use i3c_lines::tokens::{self, Tokens, is_token};

/// A word of a fact.
enum Word {
    Is(&'static str),
    Name,
    Address,
    /// An address, `any` or `none`.
    Place,
    Count,
    /// A byte, or `--` for none.
    Byte,
    Bytes,
    Reason,
    /// A reason that an address follows.
    ReasonAt,
}

/// The words of a fact.
struct Form {
    words: &'static [Word],
}

/// The facts, in the order of docs/FORMATS.md.
static FORMS: [Form; 22] = [
    Form {
        words: &[Word::Is("active"), Word::Name],
    },
    Form {
        words: &[Word::Name, Word::Is("at"), Word::Place],
    },
    Form {
        words: &[Word::Name, Word::Is("gone")],
    },
    Form {
        words: &[Word::Name, Word::Is("waiting"), Word::Count],
    },
    Form {
        words: &[Word::Is("waiting"), Word::Count],
    },
    Form {
        words: &[Word::Is("records"), Word::Count],
    },
    Form {
        words: &[Word::Is("record"), Word::Name, Word::Byte, Word::Count],
    },
    Form {
        words: &[Word::Is("assigned")],
    },
    Form {
        words: &[Word::Is("listed")],
    },
    Form {
        words: &[Word::Is("open")],
    },
    Form {
        words: &[Word::Is("done")],
    },
    Form {
        words: &[Word::Is("refused")],
    },
    Form {
        words: &[Word::Is("refused"), Word::Reason],
    },
    Form {
        words: &[Word::Is("refused"), Word::ReasonAt, Word::Address],
    },
    Form {
        words: &[Word::Is("served"), Word::Is("quiet")],
    },
    Form {
        words: &[Word::Is("served"), Word::Is("recorded")],
    },
    Form {
        words: &[Word::Is("served"), Word::Is("turned"), Word::Is("down")],
    },
    Form {
        words: &[Word::Is("served"), Word::Is("torn")],
    },
    Form {
        words: &[Word::Is("served"), Word::Is("joining")],
    },
    Form {
        words: &[Word::Is("served"), Word::Is("wants"), Word::Is("role")],
    },
    Form {
        words: &[Word::Is("bytes"), Word::Bytes],
    },
    Form {
        words: &[Word::Is("asking"), Word::Name],
    },
];

impl Word {
    /// Whether a token may be this word.
    fn fits(&self, token: &[u8]) -> bool {
        match self {
            Word::Is(text) => text.as_bytes() == token,
            Word::Name => Name::parse(token).is_some(),
            Word::Address => tokens::address(token).is_some(),
            Word::Place => {
                is_token(token, b"any")
                    || is_token(token, b"none")
                    || tokens::address(token).is_some()
            }
            Word::Count => tokens::bit(token).is_some(),
            Word::Byte => is_token(token, b"--") || tokens::byte(token).is_some(),
            Word::Bytes => written_bytes(token).is_some(),
            Word::Reason => plain_reason(token).is_some(),
            Word::ReasonAt => reason_at(token, b"08").is_some(),
        }
    }
}

impl Form {
    /// Whether a fact of this form may begin with so many of these tokens.
    fn begins(&self, tokens: Tokens<'_>, count: usize) -> bool {
        if count > self.words.len() {
            return false;
        }
        let mut tokens = tokens;
        for word in &self.words[..count] {
            let Some(token) = tokens.next() else {
                return false;
            };
            if !word.fits(token) {
                return false;
            }
        }
        true
    }
}

/// Whether a fact may begin with so many of these tokens.
pub(crate) fn is_begun(tokens: Tokens<'_>, count: usize) -> bool {
    for form in &FORMS {
        if form.begins(tokens, count) {
            return true;
        }
    }
    false
}

/// Whether so many of these tokens may be a fact.
pub(crate) fn is_whole(tokens: Tokens<'_>, count: usize) -> bool {
    for form in &FORMS {
        if form.words.len() == count && form.begins(tokens, count) {
            return true;
        }
    }
    false
}
