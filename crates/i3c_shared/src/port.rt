ghost use Rattle.std.specs.Prelude.{◌≡◌, ◌++◌, IsTrue};
ghost use mathlib.Core.List.{IsPrefix};
ghost use Rattle.rtrb.specs.Ring.{IsPair, ProducerLooked, known_items, received, sent};

use crate::compare::compare;
use i3c_base::Slot;
use rtrb::{Consumer, Producer, PushError};
use std::marker::Model;
use thiserror::Error;

/// How many posts of a port may be untaken (this project's choice).
pub const POSTS: usize = 8;

/// Eight posts are untaken: the byte comes back.
#[derive(Clone, Copy, Debug, PartialEq, Eq, Drop, Error)]
#[error("eight posts are untaken")]
pub struct Full(pub Option<u8>);

/// The port of a slot's device: what it posts is raised when a call under the lock takes it up. It must be spent.
pub struct Port {
    slot: Slot,
    producer: Producer<Option<u8>>,
}

impl Model for Port {
    ghost use Rattle.std.specs.Prelude.{◌≡◌};
    ghost use Rattle.rtrb.specs.Ring.{producer_capacity};
    ghost use Rattle.i3c_shared.specs.Values.{PortValue};
    ghost use Rattle.i3c_shared.specs.declared.port.TheConstants.{POSTS};

    ghost Value = { PortValue };

    ghost view = { λ p. record { slot = p.slot; producer = p.producer } };

    ghost invariant = { λ p. producer_capacity p.producer ≡ POSTS };
}

impl Port {
    ghost use Rattle.std.specs.Prelude.{◌∷◌, [], ◌<◌, length, IsOk, MatchResult};
    ghost use Rattle.rtrb.specs.Ring.{SameProducer, producer_capacity};
    ghost use Rattle.i3c_shared.specs.Ports.{SamePort};
    ghost use Rattle.i3c_shared.specs.Rings.{IsBegun, IsEndOf, IsWhole};
    ghost use Rattle.i3c_shared.specs.Values.{PortValue};
    ghost use Rattle.i3c_shared.specs.declared.port.TheConstants.{POSTS};

    /// A port with its end of a ring.
    pub(crate) fn new(slot: Slot, producer: Producer<Option<u8>>) -> Port
        requires { producer_capacity producer ≡ POSTS }
        ensures { result ≡ record { slot = slot; producer = producer } }
    {
        Port { slot, producer }
    }

    /// The slot whose port it is.
    pub fn slot(&self) -> Slot
        ensures { result ≡ self.now.slot }
    {
        self.slot
    }

    /// Posts a raise, with its mandatory byte if the device sends one. It waits for nobody and takes no memory. It answers
    /// `Full` if eight posts are untaken, and posts nothing then.
    pub fn post(&mut self, byte: Option<u8>) -> Result<(), Full>
        ensures port { (self.new.slot ≡ self.old.slot) × SameProducer self.old.producer self.new.producer }
        ensures posts { MatchResult result (λ _. sent self.new.producer ≡ sent self.old.producer ++ byte ∷ []) (λ full. (full.0 ≡ byte) × (sent self.new.producer ≡ sent self.old.producer)) }
        ensures first { length (sent self.old.producer) < POSTS → IsOk result }
    {
        match self.producer.push(byte) {
            Ok(()) => Ok(()),
            Err(PushError::Full(byte)) => Err(Full(byte)),
        }
    }

    /// Whether what is known of a ring is all that was posted, if the ring is this port's own. The ring stays as it is.
    pub(crate) fn covered_by(&mut self, ring: &mut Option<Consumer<Option<u8>>>) -> bool
        ensures ring { ring.new ≡ ring.old }
        ensures port { SamePort self.old self.new }
        ensures prefix { IsEndOf self.old ring.old → IsBegun self.new ring.old }
        ensures whole { IsTrue result → IsEndOf self.old ring.old → IsWhole self.new ring.old }
    {
        match ring {
            Some(ring) => covers(ring, &mut self.producer),
            None => true,
        }
    }

    /// Spends it: no event, no lock, no memory, and nothing is taken up.
    pub fn let_go(self) {
        let Port {
            slot: _,
            producer: _,
        } = self;
    }
}

/// Whether what is known of a ring and what is known to be free fill it. True makes the known items all that were posted
/// where the two ends are of one ring. There it is never false, since no other thread holds an end; but what rtrb
/// promises of `slots` doesn't say so.
fn covers(ring: &mut Consumer<Option<u8>>, producer: &mut Producer<Option<u8>>) -> bool
    ensures ring { ring.new ≡ ring.old }
    ensures producer { ProducerLooked producer.old producer.new }
    ensures prefix { IsPair producer.old ring.old → IsPrefix (received ring.old ++ known_items ring.old) (sent producer.new) }
    ensures whole { IsTrue result → IsPair producer.old ring.old → received ring.old ++ known_items ring.old ≡ sent producer.new }
{
    let free = producer.slots();
    compare(ring, producer);
    let seen = ring.cached_slots();
    let capacity = ring.capacity();
    seen <= capacity && free == capacity - seen
}

/// Spends the ports: no event, no lock, no memory, and nothing is taken up.
pub fn spend_ports(ports: Vec<Port>) {
    let mut ports = ports;
    while let Some(port) = ports.pop() {
        port.let_go();
    }
    ports.destroy_empty();
}
