use crate::checks::same;
use i3c_base::Cuts;
use i3c_bus::{Bus, Event, Reply};
use std::mem::size_of;

// Runs are kept by the million. Cuts have two bytes for each slot, the bit at which it is cut, and a word that tells which
// slots are cut.
#[test]
fn cuts_are_136_bytes(rt: HostRuntime) {
    same(&rt, size_of::<Cuts>(), 136);
}

// The largest event is a write: its address and policy, seventeen bytes with their number, which takes eight, and cuts,
// which are aligned to eight.
#[test]
fn an_event_is_184_bytes(rt: HostRuntime) {
    same(&rt, size_of::<Event>(), 184);
}

// The largest reply is that of a read: what was served, with a record's number of eight bytes, and sixteen bytes with their
// number.
#[test]
fn a_reply_is_48_bytes(rt: HostRuntime) {
    same(&rt, size_of::<Reply>(), 48);
}

// A bus has 64 devices with eight waiting interrupts each. Nine marks are words with a bit for each slot. Each slot has a key
// and the address at which its device answers, and each address a word of the slots that answer there. The numbers of the
// identities are kept twice, by slot and by bit. Its table has thirteen bytes for each address, two of them for a static
// address and one for the order of known identities, and three sets of addresses. It has a list of all addresses, sixteen
// declared identities of 24 bytes with a byte for each address that tells where its identity may be, and legacy targets with
// sixteen registers. All is inline, so that a frame wants no memory except for a record.
#[test]
fn a_bus_is_17952_bytes(rt: HostRuntime) {
    same(&rt, size_of::<Bus>(), 17952);
}
