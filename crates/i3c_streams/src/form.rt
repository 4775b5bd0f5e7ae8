/// How an answer is written.
#[derive(Clone, Copy, Debug, PartialEq, Eq)]
pub enum Form {
    /// As lines; the last is `ok` or `refused`.
    Lines,
    /// As a JSON object on one line.
    Json,
}
