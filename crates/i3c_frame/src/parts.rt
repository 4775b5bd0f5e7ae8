ghost use Rattle.std.specs.Prelude.{◌≡◌, not, position};
ghost use Rattle.std.specs.Iterator.{YieldsFirstRef, item_count};
ghost use Rattle.i3c_frame.specs.Parts.{is_separator, parts};

/// The parts of a text, between its spaces and line feeds.
#[derive(Drop)]
pub(crate) struct Parts<'a> {
    text: &'a [u8],
}

impl<'a> Parts<'a> {
    /// The parts of a text.
    pub fn new(text: &'a [u8]) -> Parts<'a>
        ensures { result.text.now ≡ text.now }
    {
        Parts { text }
    }

    /// What wasn't gone through yet, without a separator at its front.
    pub fn rest(&self) -> &'a [u8]
        ensures { parts result.now ≡ parts self.now.text.now }
    {
        match self.text {
            [byte, rest @ ..] if parts_symbols(*byte) => rest,
            text => text,
        }
    }
}

impl<'a> Iterator for Parts<'a> {
    type Item = &'a [u8];

    ghost next_gives = { YieldsFirstRef (λ s. parts s.text.now) };

    ghost remaining = { item_count (λ s. parts s.text.now) };

    fn next(&mut self) -> Option<&'a [u8]> {
        let start = start_of(self.text)?;
        let text = &self.text[start..];
        let end = end_of(text).unwrap_or(text.len());
        let (part, rest) = text.split_at(end);
        self.text = rest;
        Some(part)
    }
}

/// Where the first part of a text begins, if it has one.
fn start_of(text: &[u8]) -> Option<usize>
    ensures { result ≡ position (λ byte. not (is_separator byte)) text.now }
{
    text.iter().position(|byte| !parts_symbols(*byte))
}

/// Where the part ends with which a text begins, if something follows it.
fn end_of(text: &[u8]) -> Option<usize>
    ensures { result ≡ position is_separator text.now }
{
    text.iter().position(|byte| parts_symbols(*byte))
}

/// Whether a byte parts symbols: a space or a line feed.
pub(crate) fn parts_symbols(byte: u8) -> bool
    ensures { result ≡ is_separator byte }
{
    byte == b' ' || byte == b'\n'
}
