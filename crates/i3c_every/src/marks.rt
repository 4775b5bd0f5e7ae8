ghost use Rattle.std.specs.Prelude.{◌≡◌, Contains, IfOk, IsTrue};
ghost use Rattle.i3c_every.specs.declared.marks.Taken.{Taken as TakenValue};
ghost use Rattle.i3c_every.specs.Taking.{IsTakenAt};

use crate::answered::hash_of;
use crate::answering::Answering;
use crate::hashed::Hashed;
use crate::mark::Mark;
use crate::met::Met;
use std::alloc::{AllocError, Global};
use std::marker::Model;

/// A mark that was taken, and where the run was.
#[derive(Drop)]
pub struct Taken<M> {
    /// The mark.
    pub mark: Mark,
    /// The state.
    pub state: M,
    /// How many lines of each track had run.
    pub places: Vec<usize>,
}

/// What comes of a mark.
#[derive(Clone, Copy)]
pub enum Taking {
    /// It is taken, for the first time in this state at these places.
    New,
    /// It was taken before in this state at these places.
    Known,
    /// It isn't taken, since there are as many as may be.
    Full,
}

/// The marks that were taken, each with the state and the places of the run. They are found by hashes.
#[derive(Drop)]
pub struct Marks<M> {
    taken: Hashed<Taken<M>>,
}

impl<M> Model for Marks<M> {
    ghost use Rattle.std.specs.Prelude.{List};
    ghost use Rattle.i3c_every.specs.declared.marks.Taken.{Taken as TakenValue};

    ghost Value = { List (TakenValue M) };

    ghost view = { λ marks. marks.taken.values.items };
}

impl<M: Answering> Marks<M> {
    ghost use Rattle.std.specs.Prelude.{◌≡◌, [], IfOk};
    ghost use Rattle.i3c_every.specs.Taking.{Takes};

    /// None yet.
    pub fn new(alloc: Global) -> Marks<M>
        ensures { result ≡ [] }
    {
        Marks {
            taken: Hashed::new(alloc),
        }
    }

    /// Takes a mark where a run is, unless it was taken there before, or so many marks are taken. The runner may be in any
    /// state.
    ///
    /// # Errors
    ///
    /// There is no memory for it.
    pub fn take(
        &mut self,
        alloc: Global,
        mark: &Mark,
        met: &Met<M>,
        most: u64,
        runner: &mut M::Runner,
    ) -> Result<Taking, AllocError>
        ensures { IfOk result (λ taking. Takes most mark.now met.now self.old taking self.new) }
    {
        met.state.come(alloc, runner)?;
        let hash = hash_of::<M>(&met.places, runner);
        if has_taken::<M>(&self.taken, hash, mark, &met.places, runner) {
            return Ok(Taking::Known);
        }
        if self.taken.values.len() as u64 >= most {
            return Ok(Taking::Full);
        }
        let taken = taken_at(alloc, mark, met, runner)?;
        self.taken.push(alloc, hash, taken)?;
        Ok(Taking::New)
    }
}

/// A mark that is taken where a run is, but for the state, which a runner is in.
fn taken_at<M: Answering>(
    alloc: Global,
    mark: &Mark,
    met: &Met<M>,
    runner: &M::Runner,
) -> Result<Taken<M>, AllocError>
    ensures { IfOk result (IsTakenAt mark.now met.now.places.items (M.shown runner.now)) }
{
    let mark = mark.copied(alloc)?;
    let state = M::kept(alloc, runner, None)?;
    let places = met.places.clone()?;
    Ok(Taken {
        mark,
        state,
        places,
    })
}

/// Whether the mark at an index was taken so: the same mark, at these places, in the state that a runner is in.
fn is_taken_at<M: Answering>(
    all: &[Taken<M>],
    index: usize,
    mark: &Mark,
    places: &[usize],
    runner: &M::Runner,
) -> bool
    ensures { IsTrue result → (taken : TakenValue M) × Contains all.now taken × IsTakenAt mark.now places.now (M.shown runner.now) taken }
{
    match all.get(index) {
        Some(taken) => is_alike::<M>(taken, mark, places, runner),
        None => false,
    }
}

/// Whether a mark was taken so.
fn is_alike<M: Answering>(
    taken: &Taken<M>,
    mark: &Mark,
    places: &[usize],
    runner: &M::Runner,
) -> bool
    ensures { IsTrue result → IsTakenAt mark.now places.now (M.shown runner.now) taken.now }
{
    taken.mark.is_same(mark) && taken.places.as_slice() == places && taken.state.is_of(runner)
}

/// Whether one of the marks that have a hash was taken so.
fn has_taken<M: Answering>(
    all: &Hashed<Taken<M>>,
    hash: u64,
    mark: &Mark,
    places: &[usize],
    runner: &M::Runner,
) -> bool
    ensures { IsTrue result → (taken : TakenValue M) × Contains all.now.values.items taken × IsTakenAt mark.now places.now (M.shown runner.now) taken }
{
    for index in all.indices(hash) {
        if is_taken_at::<M>(&all.values, *index, mark, places, runner) {
            return true;
        }
    }
    false
}
