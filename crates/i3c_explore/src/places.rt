use crate::index::Index;
use std::alloc::{AllocError, Global};

/// The places of all tracks at which some nodes are.
#[derive(Clone, Copy)]
pub(crate) struct NodesAt {
    /// The code of the places.
    pub code: u64,
    /// The first node there.
    pub first: usize,
    /// The last node there.
    pub last: usize,
    /// The number of nodes there.
    pub count: usize,
}

/// Codes of places, each once, in the order in which they came.
#[derive(Drop)]
pub(crate) struct Codes {
    index: Index,
    count: usize,
}

/// The key of a code. Different codes have different keys.
fn key_of(code: u64) -> u64 {
    let key = (code ^ (code >> 32)).wrapping_mul(0x9E37_79B9_7F4A_7C15);
    key ^ (key >> 32)
}

impl Codes {
    /// No code.
    pub(crate) fn new(alloc: Global) -> Codes {
        Codes {
            index: Index::new(alloc),
            count: 0,
        }
    }

    /// The index of a code. A new code gets the next index.
    pub(crate) fn index_of(&mut self, alloc: Global, code: u64) -> Result<usize, AllocError> {
        let key = key_of(code);
        for distance in 0..self.index.slots() {
            match self.index.at(key, distance) {
                Some((true, index)) => return Ok(index),
                Some((false, _)) => {}
                None => return self.add(alloc, key),
            }
        }
        self.add(alloc, key)
    }

    /// Adds a code, by its key.
    fn add(&mut self, alloc: Global, key: u64) -> Result<usize, AllocError> {
        let index = self.count;
        self.index.add(alloc, key)?;
        self.count = index.saturating_add(1);
        Ok(index)
    }
}

/// The places of a layer's nodes.
#[derive(Drop)]
pub(crate) struct Places {
    codes: Codes,
    /// The places, each once.
    pub all: Vec<NodesAt>,
    /// The index of the place of each node.
    pub of_nodes: Vec<usize>,
}

impl Places {
    /// No places yet, with memory for the index of each of some nodes.
    fn none(alloc: Global, nodes: usize) -> Result<Places, AllocError> {
        Ok(Places {
            codes: Codes::new(alloc),
            all: Vec::new(alloc),
            of_nodes: Vec::with_capacity(alloc, nodes)?,
        })
    }

    /// The places with these codes, one code for each node.
    pub(crate) fn of_codes(alloc: Global, codes: &[u64]) -> Result<Places, AllocError> {
        let mut places = Places::none(alloc, codes.len())?;
        for (node, code) in codes.iter().enumerate() {
            places.add(alloc, node, *code)?;
        }
        Ok(places)
    }

    /// Adds the next node.
    fn add(&mut self, alloc: Global, node: usize, code: u64) -> Result<(), AllocError> {
        let index = self.codes.index_of(alloc, code)?;
        self.of_nodes.push(index)?;
        match self.all.get_mut(index) {
            Some(place) => {
                place.last = node;
                place.count = place.count.saturating_add(1);
            }
            None => {
                self.all.push(NodesAt {
                    code,
                    first: node,
                    last: node,
                    count: 1,
                })?;
            }
        }
        Ok(())
    }
}
