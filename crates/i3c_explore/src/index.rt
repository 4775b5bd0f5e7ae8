use std::alloc::{AllocError, Global};

/// A hash table of things with keys, such as a layer's nodes. A slot holds the index of one and 1, or 0 if it is free.
///
/// What it finds of nodes is compared again, so nothing is proved of it.
#[derive(Drop)]
pub(crate) struct Index {
    slots: Vec<usize>,
    keys: Vec<u64>,
}

/// The slots of a small table.
const SMALL: usize = 16;

/// The slot at a distance behind a key's own, of this many: a power of two.
fn slot_of(key: u64, distance: usize, slots: usize) -> usize {
    (key as usize).wrapping_add(distance) & slots.wrapping_sub(1)
}

impl Index {
    /// A table without a node.
    pub(crate) fn new(alloc: Global) -> Index {
        Index {
            slots: Vec::new(alloc),
            keys: Vec::new(alloc),
        }
    }

    /// The node that the slot at a distance behind the key's own leads to: none if that slot is free, and else whether
    /// the node has the key, and its index.
    pub(crate) fn at(&self, key: u64, distance: usize) -> Option<(bool, usize)> {
        let slot = slot_of(key, distance, self.slots.len());
        let index = self.slots.get(slot)?.checked_sub(1)?;
        let other = *self.keys.get(index)?;
        Some((other == key, index))
    }

    /// The key of a node, or 0 if there is no node of this index.
    pub(crate) fn key(&self, index: usize) -> u64 {
        match self.keys.get(index) {
            Some(key) => *key,
            None => 0,
        }
    }

    /// The number of slots.
    pub(crate) fn slots(&self) -> usize {
        self.slots.len()
    }

    /// Adds the next node, with its key.
    pub(crate) fn add(&mut self, alloc: Global, key: u64) -> Result<(), AllocError> {
        self.keys.push(key)?;
        if self.keys.len() > self.slots.len() / 2 {
            return self.grow(alloc);
        }
        fill(&mut self.slots, key, self.keys.len());
        Ok(())
    }

    /// Makes room for this many nodes more.
    pub(crate) fn make_room(&mut self, alloc: Global, count: usize) -> Result<(), AllocError> {
        self.keys.reserve(count)?;
        let nodes = self.keys.len().saturating_add(count);
        match nodes.saturating_mul(2).checked_next_power_of_two() {
            Some(size) if size > self.slots.len() => self.resize(alloc, size.max(SMALL)),
            _ => Ok(()),
        }
    }

    /// Makes the table twice as large.
    fn grow(&mut self, alloc: Global) -> Result<(), AllocError> {
        let size = self.slots.len().saturating_mul(2).max(SMALL);
        self.resize(alloc, size)
    }

    /// Makes the table one of this many slots: a power of two.
    fn resize(&mut self, alloc: Global, size: usize) -> Result<(), AllocError> {
        let mut slots = vec![in alloc; 0usize; size]?;
        for (index, key) in self.keys.iter().enumerate() {
            fill(&mut slots, *key, index + 1);
        }
        self.slots = slots;
        Ok(())
    }
}

/// Puts a node into the first free slot behind its key's own.
fn fill(slots: &mut Vec<usize>, key: u64, node: usize) {
    for distance in 0..slots.len() {
        let slot = slot_of(key, distance, slots.len());
        if let Some(held) = slots.get_mut(slot) {
            if *held == 0 {
                *held = node;
                return;
            }
        }
    }
}
