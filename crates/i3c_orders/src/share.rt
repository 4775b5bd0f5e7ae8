ghost use Rattle.std.specs.Prelude.{◌≡◌, ◌<◌, ◌≤◌};
ghost use Rattle.i3c_orders.specs.Shares.{IsShare, begin_of};

use crate::portion::Portion;

/// The answers to a line that a part takes: from the least to the most, by their numbers, counted from 0.
#[derive(Clone, Copy)]
pub struct Share {
    /// The number of the first of them.
    pub least: usize,
    /// The number of the last of them.
    pub most: usize,
    /// The part of the runs behind each of them.
    pub behind: Portion,
}

impl Portion {
    /// What it takes of the answers to a line, which are so many.
    pub fn share(self, answers: usize) -> Share
        requires { 0 < answers }
        ensures { IsShare self answers result }
    {
        if self.of <= answers {
            return Share {
                least: begin_of(self.index, self.of, answers),
                most: begin_of(self.index + 1, self.of, answers) - 1,
                behind: Portion::whole(),
            };
        }
        let number = self.index % answers;
        Share {
            least: number,
            most: number,
            behind: Portion {
                index: self.index / answers,
                of: (self.of - number).div_ceil(answers),
            },
        }
    }
}

/// The number of the first answer that the part with this index takes, of so many parts. Past the last part it is how many
/// answers there are.
fn begin_of(index: usize, of: usize, answers: usize) -> usize
    requires index { index ≤ of }
    requires of { 0 < of }
    ensures begins { result ≡ begin_of index of answers }
    ensures within { result ≤ answers }
    ensures some { 0 < index → of ≤ answers → 0 < result }
{
    index * (answers / of) + index.min(answers % of)
}
