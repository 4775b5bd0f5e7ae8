use crate::line::Expectation;
use crate::risk::Risk;

/// What holds of each line that a program sends.
#[derive(Drop)]
pub struct Rules {
    /// The devices that may lose power at any bit of its frame.
    pub risk: Risk,
    /// What is expected behind it.
    pub lasting: Vec<Expectation>,
}
