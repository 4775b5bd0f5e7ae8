ghost use Rattle.std.specs.Prelude.{◌≡◌, replicate, slice_set, MatchOption};
ghost use Rattle.i3c_base.specs.declared.range.TheConstants.{SLOTS as SLOT_COUNT};
ghost use Rattle.i3c_wires.specs.BitColumns.{AreTurned, IsNobody, IsWon};

use i3c_base::{SLOTS, Slot};

/// The number that each slot would drive, and for each bit the set of slots that drive 1 there.
#[derive(Clone, Copy)]
pub struct BitColumns {
    // by slot, its number
    numbers: [u64; SLOTS],
    // by bit, counted from the least significant one, the slots whose number has it
    ones: [u64; 64],
    // the bits that some number has, or had
    any: u64,
}

/// What was read in an arbitration, and the slots that won it.
#[derive(Clone, Copy)]
pub struct Won {
    /// The number that was read, which is the least one.
    pub bits: u64,
    /// The slots that have this number, each a bit of the word.
    pub winners: u64,
}

impl BitColumns {
    /// Each slot's number is 0.
    #[inline(always)]
    pub fn new() -> BitColumns
        ensures none { result.numbers ≡ replicate SLOT_COUNT 0 }
        ensures turned { AreTurned result }
    {
        BitColumns {
            numbers: [0; SLOTS],
            ones: [0; 64],
            any: 0,
        }
    }

    /// Sets a slot's number.
    pub fn set(&mut self, slot: Slot, number: u64)
        ensures set { self.new.numbers ≡ slice_set self.old.numbers slot number }
        ensures turned { AreTurned self.old → AreTurned self.new }
    {
        let index = slot.index();
        let mut rest = self.numbers[index] ^ number;
        while rest != 0 {
            let bit = rest.trailing_zeros();
            self.ones[bit as usize] ^= 1 << index;
            rest &= !(1 << bit);
        }
        self.any |= number;
        self.numbers[index] = number;
    }

    /// Arbitrates between these slots, each a bit of the word, by the most significant bit first (I3C Basic 5.1.4). No
    /// device loses power. What the lines read is the least number.
    pub fn contest(&self, among: u64) -> Option<Won>
        requires { AreTurned self.now }
        ensures { MatchOption result (IsNobody among) (IsWon self.now.numbers among) }
    {
        if among == 0 {
            return None;
        }
        let mut bits = 0;
        let mut still = among;
        let mut turns = self.any;
        while turns != 0 {
            let left = turns.ilog2();
            let zeros = still & !self.ones[left as usize];
            if zeros == 0 {
                bits |= 1 << left;
            } else {
                still = zeros;
            }
            turns &= !(1 << left);
        }
        Some(Won {
            bits,
            winners: still,
        })
    }
}
