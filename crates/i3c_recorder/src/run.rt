ghost use Rattle.std.specs.Prelude.{◌≡◌, ◌+◌, ◌-◌, ◌<◌, ◌≤◌, ◌++◌, ◌∷◌, [], length, nat_eq, option_map, slice_get, IfOk, OnOk, vec_len, vec_capacity};

use crate::entry::Entry;
use crate::packed::{Packed, copied, event_in, in_short, reply_in};
use i3c_step::{OutOfMemory, Reply};
use std::alloc::{AllocError, Global};
use std::marker::Model;

/// The run of a bus as it is kept: its events with their replies, the oldest first.
///
/// An entry takes 64 bytes if nobody is cut and nothing written or read; any other is stored out of line.
#[derive(Drop)]
pub struct Run {
    packed: Vec<Packed>,
    wide: Vec<Entry>,
}

impl Model for Run {
    ghost use Rattle.std.specs.Prelude.{◌≡◌, ◌-◌, min, length, All, vec_len, vec_capacity};
    ghost use Rattle.i3c_recorder.specs.Packing.{IsWithin, entries_in};
    ghost use Rattle.i3c_recorder.specs.Values.{Story};

    ghost Value = { Story };

    ghost view = { λ r. record {
      entries = entries_in r.wide.items r.packed.items;
      spare = min (vec_capacity r.packed - vec_len r.packed) (vec_capacity r.wide - vec_len r.wide);
    } };

    ghost invariant = { λ r. All (IsWithin (length r.wide.items)) r.packed.items };
}

impl Run {
    /// A run in which nothing has happened.
    pub fn new(alloc: Global) -> Run
        ensures { result.entries ≡ [] }
    {
        Run {
            packed: Vec::new(alloc),
            wide: Vec::new(alloc),
        }
    }

    /// How many events have happened.
    pub fn len(&self) -> usize
        ensures { result ≡ length self.now.entries }
    {
        self.packed.len()
    }

    /// Whether nothing has happened.
    pub fn is_empty(&self) -> bool
        ensures { result ≡ nat_eq (length self.now.entries) 0 }
    {
        self.packed.is_empty()
    }

    /// A copy of the event of a place, from 0, with its reply.
    pub fn get(&self, place: usize) -> Result<Option<Entry>, AllocError>
        ensures { IfOk result (λ found. found ≡ slice_get self.now.entries place) }
    {
        let Some(packed) = self.packed.get(place) else {
            return Ok(None);
        };
        match packed {
            Packed::Short(short, said) => Ok(Some(Entry {
                event: event_in(short),
                reply: reply_in(said),
            })),
            Packed::Wide(at) => {
                let entry = &self.wide[*at];
                Ok(Some(Entry {
                    event: copied(&entry.event)?,
                    reply: entry.reply,
                }))
            }
        }
    }

    /// The reply to the event of a place, from 0.
    pub fn reply(&self, place: usize) -> Option<Reply>
        ensures { result ≡ option_map (λ entry. entry.reply) (slice_get self.now.entries place) }
    {
        match self.packed.get(place)? {
            Packed::Short(_, said) => Some(reply_in(said)),
            Packed::Wide(at) => {
                let entry = &self.wide[*at];
                Some(entry.reply)
            }
        }
    }

    /// Makes room for `more` more entries.
    pub(crate) fn reserve(&mut self, more: usize) -> Result<(), OutOfMemory>
        ensures entries { self.new.entries ≡ self.old.entries }
        ensures spare { OnOk result (more ≤ self.new.spare) }
    {
        match self.packed.reserve(more) {
            Ok(()) => {}
            Err(_) => return Err(OutOfMemory),
        }
        match self.wide.reserve(more) {
            Ok(()) => Ok(()),
            Err(_) => Err(OutOfMemory),
        }
    }

    /// Adds the next event, for which there has to be room.
    pub(crate) fn push(&mut self, entry: Entry)
        requires { 0 < self.old.spare }
        ensures entries { self.new.entries ≡ self.old.entries ++ entry ∷ [] }
        ensures spare { self.old.spare ≤ self.new.spare + 1 }
    {
        match in_short(&entry) {
            Some((short, said)) => {
                self.packed.push_reserved(Packed::Short(short, said));
            }
            None => {
                let at = self.wide.len();
                self.wide.push_reserved(entry);
                self.packed.push_reserved(Packed::Wide(at));
            }
        }
    }
}
