ghost use Rattle.std.specs.Prelude.{◌≡◌, IsTrue};

use i3c_base::Record;
use i3c_lines::{Name, Refusal};
use i3c_script::PieceList;
use i3c_text::Text;
use std::alloc::Global;
use std::marker::Model;

/// What a program is answered. Clauses see its parts.
#[derive(Drop)]
pub struct Reply {
    pub(crate) pieces: PieceList,
    pub(crate) refused: Option<Refusal>,
    pub(crate) behind: usize,
    pub(crate) added: Vec<Record>,
    pub(crate) asking: Vec<Name>,
    pub(crate) unmet: Option<u64>,
    pub(crate) there: Text,
}

impl Model for Reply {
    ghost use Rattle.i3c_scene.specs.Replying.{Replied, replied};

    ghost Value = { Replied };

    ghost view = { λ r. replied r.pieces r.refused r.behind r.added.items r.asking.items r.unmet r.there };
}

impl Reply {
    ghost use Rattle.std.specs.Prelude.{◌≡◌, [], IsTrue, None};
    ghost use Rattle.i3c_scene.specs.Replying.{replied};

    /// A reply to a line that came to these pieces, and was refused or not, with so many records before it. What else it tells
    /// isn't known yet.
    pub(crate) fn begun(
        alloc: Global,
        pieces: PieceList,
        refused: Option<Refusal>,
        behind: usize,
    ) -> Reply
        ensures { result ≡ replied pieces refused behind [] [] None [] }
    {
        Reply {
            pieces,
            refused,
            behind,
            added: Vec::new(alloc),
            asking: Vec::new(alloc),
            unmet: None,
            there: Text::new(alloc),
        }
    }

    /// What the line came to.
    pub fn pieces(&self) -> &PieceList
        ensures { result.now ≡ self.now.pieces }
    {
        &self.pieces
    }

    /// Why it was refused, if it was.
    pub fn refused(&self) -> Option<Refusal>
        ensures { result ≡ self.now.refused }
    {
        self.refused
    }

    /// How many records there had been before the line, those that left the log since among them.
    pub fn behind(&self) -> usize
        ensures { result ≡ self.now.behind }
    {
        self.behind
    }

    /// The records that the line added.
    pub fn added(&self) -> &[Record]
        ensures { result.now ≡ self.now.added }
    {
        self.added.as_slice()
    }

    /// The names of the devices whose request would win the next arbitrable header, by slot: one, or all that want to join.
    pub fn asking(&self) -> &[Name]
        ensures { result.now ≡ self.now.asking }
    {
        self.asking.as_slice()
    }

    /// The number of the expectation that the line breaks, if it breaks one.
    pub fn unmet(&self) -> Option<u64>
        ensures { result ≡ self.now.unmet }
    {
        self.unmet
    }

    /// What is there in its place.
    pub fn there(&self) -> &[u8]
        ensures { result.now ≡ self.now.there }
    {
        self.there.as_bytes()
    }

    /// Whether two replies are the same.
    #[tactic(auto, using(crate::proofs::Replied::same_reply))]
    pub(crate) fn is_same(&self, other: &Reply) -> bool
        ensures { IsTrue result → self.now ≡ other.now }
    {
        self.came_alike(other)
            && self.recorded_alike(other)
            && are_same_names(self.asking(), other.asking())
            && self.breaks_alike(other)
    }

    /// Whether both lines came to the same.
    fn came_alike(&self, other: &Reply) -> bool
        ensures { IsTrue result → (self.now.pieces ≡ other.now.pieces) × (self.now.refused ≡ other.now.refused) }
    {
        self.pieces.is_same(&other.pieces) && self.refused == other.refused
    }

    /// Whether the same was recorded.
    fn recorded_alike(&self, other: &Reply) -> bool
        ensures { IsTrue result → (self.now.behind ≡ other.now.behind) × (self.now.added ≡ other.now.added) }
    {
        self.behind() == other.behind() && are_same_records(self.added(), other.added())
    }

    /// Whether both break the same expectation.
    fn breaks_alike(&self, other: &Reply) -> bool
        ensures { IsTrue result → (self.now.unmet ≡ other.now.unmet) × (self.now.there ≡ other.now.there) }
    {
        self.unmet() == other.unmet() && self.there() == other.there()
    }
}

/// Whether these are the same names in the same order.
fn are_same_names(names: &[Name], others: &[Name]) -> bool
    ensures { IsTrue result → names.now ≡ others.now }
{
    if names.len() != others.len() {
        return false;
    }
    for index in 0..names.len() {
        if !names[index].is_same(&others[index]) {
            return false;
        }
    }
    true
}

/// Whether these are the same records in the same order.
fn are_same_records(records: &[Record], others: &[Record]) -> bool
    ensures { IsTrue result → records.now ≡ others.now }
{
    if records.len() != others.len() {
        return false;
    }
    for index in 0..records.len() {
        if records[index] != others[index] {
            return false;
        }
    }
    true
}
