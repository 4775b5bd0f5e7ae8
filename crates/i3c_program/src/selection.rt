ghost use Rattle.std.specs.Prelude.{◌≡◌, slice_get};
ghost use Rattle.i3c_program.specs.Choosing.{Takes, number_for, run_in, ways_in};

use i3c_orders::{Choice, Orders, Portion, Unfinished, Which};
use rand::rngs::SmallRng;
use rand::{RngExt as _, SeedableRng as _};

/// How those orders are chosen that are tried.
#[derive(Drop)]
pub enum Selection {
    /// All are tried.
    All,
    /// Those of a part.
    Part(Sharing),
    /// One, by the numbers of the answers that its lines take.
    One(Vec<usize>),
    /// Some that are drawn.
    Drawn(Drawing),
}

/// The orders of a part.
#[derive(Clone, Copy)]
pub struct Sharing {
    /// The part of what is behind the lines whose answers were shared out.
    pub behind: Portion,
    /// The last of these lines, if there is one.
    pub last: Option<Parted>,
}

/// A line whose answers were shared out.
#[derive(Clone, Copy)]
pub struct Parted {
    /// Its place in a run, counted from 0.
    pub place: usize,
    /// The least answer that the part takes there, by its number.
    pub least: usize,
}

/// Orders that are drawn.
#[derive(Drop)]
pub struct Drawing {
    /// How many of them aren't tried yet, the newest one among them.
    pub left: u64,
    generator: SmallRng,
}

impl Selection {
    ghost use Rattle.std.specs.Prelude.{◌≡◌, ◌↔◌, IsTrue};
    ghost use Rattle.i3c_program.specs.declared.selection.Selection.{Selection as SelectionValue};
    ghost use Rattle.i3c_program.specs.Choosing.{GoesTo, Selects, StartsAs, TriesWhole};

    /// Before the first line of the first order.
    pub(crate) fn new(which: Which) -> Selection
        ensures { StartsAs which result }
    {
        match which {
            Which::All => Selection::All,
            Which::Part(behind) => Selection::Part(Sharing { behind, last: None }),
            Which::One(numbers) => Selection::One(numbers),
            Which::Drawn(left, seed) => Selection::Drawn(Drawing {
                left,
                generator: SmallRng::seed_from_u64(seed),
            }),
        }
    }

    /// Whether all orders are tried.
    pub(crate) fn is_all(&self) -> bool
        ensures { IsTrue result ↔ (self.now ≡ SelectionValue.All) }
    {
        match self {
            Selection::All => true,
            Selection::Part(_) | Selection::One(_) | Selection::Drawn(_) => false,
        }
    }

    /// Whether whatever is behind an order that is tried is tried too.
    pub(crate) fn tries_whole(&self) -> bool
        ensures { IsTrue result ↔ TriesWhole self.now }
    {
        match self {
            Selection::All | Selection::Part(_) => true,
            Selection::One(_) | Selection::Drawn(_) => false,
        }
    }

    /// Chooses among the answers to a run's newest line, which no run before has sent. Answers whether there is the one that it
    /// has to take.
    pub(crate) fn choose<L: Drop, S: Drop, A: Drop>(&mut self, orders: &mut Orders<L, S, A>) -> bool
        ensures { Selects self.old orders.old result self.new orders.new }
    {
        match self {
            Selection::All => true,
            Selection::Part(sharing) => sharing.choose(orders),
            Selection::One(numbers) => take(numbers, orders),
            Selection::Drawn(drawing) => drawing.choose(orders),
        }
    }

    /// Goes on to the next order, and answers whether there is one.
    ///
    /// # Errors
    ///
    /// A run that began as this one went on here.
    pub(crate) fn go_on<L: Drop, S: Drop, A: Drop>(
        &mut self,
        orders: &mut Orders<L, S, A>,
    ) -> Result<bool, Unfinished>
        ensures { GoesTo self.old orders.old result self.new orders.new }
    {
        match self {
            Selection::All => orders.again(),
            Selection::Part(sharing) => sharing.go_on(orders),
            Selection::One(_) => Ok(false),
            Selection::Drawn(drawing) => Ok(drawing.go_on(orders)),
        }
    }
}

impl Sharing {
    ghost use Rattle.std.specs.Prelude.{◌≡◌, ◌↔◌, IsTrue};
    ghost use Rattle.i3c_program.specs.Choosing.{IsPassed, PartGoesTo, Parts};

    /// Shares out the answers to a run's newest line, unless what is behind is the part's.
    fn choose<L: Drop, S: Drop, A: Drop>(&mut self, orders: &mut Orders<L, S, A>) -> bool
        ensures { Parts self.old orders.old result self.new orders.new }
    {
        let ways = ways_in(orders.choices());
        if ways == 0 || self.behind.is_whole() {
            return true;
        }
        let share = self.behind.share(ways);
        *self = Sharing {
            behind: share.behind,
            last: Some(Parted {
                place: orders.choices().len() - 1,
                least: share.least,
            }),
        };
        orders.choose(share.most)
    }

    /// Goes on to the next order of the part, and answers whether there is one.
    fn go_on<L: Drop, S: Drop, A: Drop>(
        &self,
        orders: &mut Orders<L, S, A>,
    ) -> Result<bool, Unfinished>
        ensures { PartGoesTo self.now.last orders.old result orders.new }
    {
        match orders.again() {
            Ok(true) => Ok(!self.is_passed(orders.path())),
            Ok(false) => Ok(false),
            Err(Unfinished) => Err(Unfinished),
        }
    }

    /// Whether a path is behind all orders of the part.
    fn is_passed<L, S, A>(&self, path: &[Choice<L, S, A>]) -> bool
        ensures { IsTrue result ↔ IsPassed self.now.last path.now }
    {
        match self.last {
            Some(parted) => path.len() <= parted.place
                || (path.len() - 1 == parted.place && ways_in(path) <= parted.least),
            None => false,
        }
    }
}

impl Drawing {
    ghost use Rattle.std.specs.Prelude.{◌≡◌};
    ghost use Rattle.i3c_program.specs.Choosing.{DrawingGoesTo, Draws};

    /// Draws one of the answers to a run's newest line.
    fn choose<L: Drop, S: Drop, A: Drop>(&mut self, orders: &mut Orders<L, S, A>) -> bool
        ensures { Draws self.old orders.old result self.new orders.new }
    {
        let ways = ways_in(orders.choices());
        if ways == 0 {
            return true;
        }
        orders.choose(self.generator.random_range(0..ways))
    }

    /// Begins another order, if one is to be drawn, and answers whether.
    fn go_on<L: Drop, S: Drop, A: Drop>(&mut self, orders: &mut Orders<L, S, A>) -> bool
        ensures { DrawingGoesTo self.old orders.old result self.new orders.new }
    {
        if self.left <= 1 {
            return false;
        }
        self.left -= 1;
        orders.restart();
        true
    }
}

/// Takes the answer to a run's newest line whose number stands at the line's place, if one does. Answers whether there is such an
/// answer.
fn take<L: Drop, S: Drop, A: Drop>(numbers: &[usize], orders: &mut Orders<L, S, A>) -> bool
    ensures { Takes (number_for numbers.now (run_in orders.old)) orders.old result orders.new }
{
    let Some(place) = orders.choices().len().checked_sub(1) else {
        return true;
    };
    match number_at(numbers, place) {
        Some(number) => orders.choose(number),
        None => true,
    }
}

/// The number at a place, if there is one.
fn number_at(numbers: &[usize], place: usize) -> Option<usize>
    ensures { result ≡ slice_get numbers.now place }
{
    match numbers.get(place) {
        Some(number) => Some(*number),
        None => None,
    }
}

/// How many answers are left for the last line of a path, the one that it took counted; 0 without a line.
fn ways_in<L, S, A>(path: &[Choice<L, S, A>]) -> usize
    ensures { result ≡ ways_in path.now }
{
    match path.last() {
        Some(choice) => choice.left.len() + 1,
        None => 0,
    }
}
