ghost use Rattle.std.specs.Prelude.{◌≡◌, ◌≢◌, ◌<◌, ◌≤◌, All, HoldsAt, MatchOption, length};
ghost use Rattle.i3c_legacy.specs.declared.legacies.TheConstants.{DECLARED as DECLARED_COUNT};
ghost use Rattle.i3c_base.specs.State.{is_static};

use crate::copying::{identities_again, targets_again};
use crate::resting::RestingLegacies;
use crate::{DeclareFault, LegacyFault};
use arrayvec::ArrayVec;
use i3c_base::{ADDRESSES, Addr7, Addresses, Identity, Lvr};
use std::marker::Model;

/// How many legacy targets a bus may have (this project's choice).
pub const LEGACIES: usize = 16;

/// How many identities may be declared at static addresses (this project's choice).
pub const DECLARED: usize = 16;

// a legacy target, as it is declared
#[derive(Clone, Copy, PartialEq, Eq, Default)]
pub(crate) struct Declared {
    pub address: Addr7,
    pub lvr: Lvr,
}

// an identity at its static address
#[derive(Clone, Copy, PartialEq, Eq, Default)]
pub(crate) struct DeclaredIdentity {
    pub address: Addr7,
    pub identity: Identity,
}

/// What has a static address: legacy I2C targets with their LVRs, and I3C devices by their identities (I3C Basic
/// 5.1.1.2.3 and 5.1.2.1).
///
/// Clauses see a place for each of the 128 addresses, of each kind.
#[derive(Drop)]
pub struct Legacies {
    pub(crate) targets: ArrayVec<Declared, LEGACIES>,
    pub(crate) identities: ArrayVec<DeclaredIdentity, DECLARED>,
    // at a static address, where its identity may be found among these
    hints: [u8; ADDRESSES],
    // the addresses of all these
    pub(crate) addresses: Addresses,
}

impl Model for Legacies {
    ghost use Rattle.i3c_base.specs.State.{Board};

    ghost Value = { Board };

    ghost use Rattle.i3c_legacy.specs.Boards.{board_of, AreDeclared};

    ghost view = { λ l. board_of l.targets.items l.identities.items };

    ghost invariant = { λ l. AreDeclared l.targets.items l.identities.items l.addresses.0 };
}

impl Legacies {
    ghost use Rattle.std.specs.Prelude.{◌≡◌, ℕ, ◌≤◌, ◌↔◌, ◌||◌, false, IsTrue, count_by, is_some, None, Some, length, slice_set, slice_index_or, IfSome, MatchResult, OnOk, OnErr};
    ghost use Rattle.i3c_base.specs.declared.range.TheConstants.{ADDRESSES};
    ghost use Rattle.i3c_base.specs.Sets.{is_in};
    ghost use Rattle.i3c_base.specs.State.{declared_in, fixed_of, is_static, no_board, IsBoard, IsFree};
    ghost use Rattle.i3c_legacy.specs.declared.legacies.TheConstants.{DECLARED, LEGACIES};
    ghost use Rattle.i3c_legacy.specs.Declaring.{first_declare_fault, first_fault, is_taken};

    /// Nothing has a static address.
    pub fn new() -> Legacies
        ensures { result ≡ no_board }
    {
        Legacies {
            targets: ArrayVec::new(),
            identities: ArrayVec::new(),
            hints: [0; ADDRESSES],
            addresses: Addresses::new(),
        }
    }

    /// The same once more.
    pub fn copied(&self) -> Legacies
        ensures { result ≡ self.now }
    {
        Legacies {
            targets: targets_again(self.targets.as_slice()),
            identities: identities_again(self.identities.as_slice()),
            hints: self.hints,
            addresses: self.addresses,
        }
    }

    /// It becomes what was at rest.
    pub fn wake(&mut self, resting: &RestingLegacies)
        ensures { self.new ≡ resting.now }
    {
        if !resting.is_of(self) {
            *self = Legacies::woken(resting);
        }
    }

    /// What was at rest.
    fn woken(resting: &RestingLegacies) -> Legacies
        ensures { result ≡ resting.now }
    {
        let identities = resting.identities.as_slice();
        Legacies {
            targets: targets_again(resting.targets.as_slice()),
            identities: identities_again(identities),
            hints: hints_for(identities),
            addresses: resting.addresses,
        }
    }

    /// The LVR of the target at a static address, if there is one.
    pub fn lvr_at(&self, address: Addr7) -> Option<Lvr>
        ensures same { result ≡ slice_index_or self.now.legacy address None }
        ensures all_places { length self.now.legacy ≡ ADDRESSES }
    {
        let targets = self.targets.as_slice();
        match index_of(targets, address) {
            Some(index) => Some(targets[index].lvr),
            None => None,
        }
    }

    /// The identity that is declared at a static address, if one is.
    pub fn declared_at(&self, address: Addr7) -> Option<Identity>
        ensures same { result ≡ declared_in self.now.declared address }
        ensures fixed { IfSome result (λ i. IsTrue (is_static address) × (fixed_of self.now.declared i ≡ Some address)) }
        ensures all_places { length self.now.declared ≡ ADDRESSES }
    {
        let identities = self.identities.as_slice();
        let hint = self.hints[address.get() as usize];
        match index_at(identities, usize::from(hint), address) {
            Some(index) => Some(identities[index].identity),
            None => None,
        }
    }

    /// The static address that is declared for an identity, if one is.
    pub fn fixed_of(&self, identity: &Identity) -> Option<Addr7>
        ensures same { result ≡ fixed_of self.now.declared identity.now }
        ensures static_alone { IfSome result (λ a. IsTrue (is_static a)) }
    {
        let identities = self.identities.as_slice();
        match index_for(identities, identity) {
            Some(index) => Some(identities[index].address),
            None => None,
        }
    }

    /// Whether an identity is declared.
    pub fn has_declared(&self) -> bool
        ensures { (result ≡ false) ↔ ((a : ℕ) → IsFree self.now.declared a) }
    {
        !self.identities.is_empty()
    }

    /// All static addresses, of targets and of declared identities.
    pub fn addresses(&self) -> Addresses
        ensures all { (a : ℕ) → is_in result.0 a ≡ (is_some (slice_index_or self.now.legacy a None) || is_some (declared_in self.now.declared a)) }
        ensures board { IsBoard self.now }
        ensures few { count_by is_some self.now.legacy ≤ LEGACIES }
        ensures few_declared { count_by is_some self.now.declared ≤ DECLARED }
    {
        self.addresses
    }

    /// The LVRs of all targets, each at its static address.
    pub fn by_address(&self) -> [Option<Lvr>; ADDRESSES]
        ensures same { result ≡ self.now.legacy }
        ensures few { count_by is_some self.now.legacy ≤ LEGACIES }
        ensures static_alone { (a : ℕ) → IfSome (slice_index_or self.now.legacy a None) (λ _. IsTrue (is_static a)) }
    {
        let mut lvrs = [None; ADDRESSES];
        for target in self.targets.iter() {
            lvrs[target.address.get() as usize] = Some(target.lvr);
        }
        lvrs
    }

    /// How many targets are declared.
    pub fn len(&self) -> usize
        ensures count { result ≡ count_by is_some self.now.legacy }
        ensures few { result ≤ LEGACIES }
    {
        self.targets.len()
    }

    /// Whether no target is declared.
    pub fn is_empty(&self) -> bool
        ensures { IsTrue result ↔ (count_by is_some self.now.legacy ≡ 0) }
    {
        self.len() == 0
    }

    /// Declares a target at a static address: one of `08` to `77`, where nothing is declared, while there are fewer than
    /// `LEGACIES` targets. What of this fails first is the fault, and then nothing has changed.
    pub fn add(&mut self, address: Addr7, lvr: Lvr) -> Result<(), LegacyFault>
        ensures fault { MatchResult result (λ _. first_fault self.old address ≡ None)
            (λ fault. first_fault self.old address ≡ Some fault) }
        ensures added { OnOk result (self.new ≡ record self.old { legacy = slice_set self.old.legacy address (Some lvr) }) }
        ensures unchanged { OnErr result (self.new ≡ self.old) }
    {
        if !is_static(address) {
            return Err(LegacyFault::LegacyAddress);
        }
        if self.is_taken(address) {
            return Err(LegacyFault::LegacyTwice);
        }
        if self.targets.is_full() {
            return Err(LegacyFault::TooManyLegacy);
        }
        self.targets.push(Declared { address, lvr });
        self.addresses = self.addresses.with(address);
        Ok(())
    }

    /// Declares an identity at a static address: one of `08` to `77`, where nothing is declared, if the identity has none
    /// and while there are fewer than `DECLARED` identities. What of this fails first is the fault, and then nothing has
    /// changed.
    pub fn declare(&mut self, address: Addr7, identity: Identity) -> Result<(), DeclareFault>
        ensures fault { MatchResult result (λ _. first_declare_fault self.old address identity ≡ None)
            (λ fault. first_declare_fault self.old address identity ≡ Some fault) }
        ensures declared { OnOk result (self.new ≡ record self.old { declared = slice_set self.old.declared address (Some identity) }) }
        ensures unchanged { OnErr result (self.new ≡ self.old) }
    {
        if !is_static(address) {
            return Err(DeclareFault::LegacyAddress);
        }
        if self.is_taken(address) {
            return Err(DeclareFault::LegacyTwice);
        }
        if self.fixed_of(&identity).is_some() {
            return Err(DeclareFault::IdentityTwice);
        }
        if self.identities.is_full() {
            return Err(DeclareFault::TooManyDeclared);
        }
        self.hints[address.get() as usize] = self.identities.len() as u8;
        self.identities.push(DeclaredIdentity { address, identity });
        self.addresses = self.addresses.with(address);
        Ok(())
    }

    // Whether something is declared at a static address.
    fn is_taken(&self, address: Addr7) -> bool
        ensures { result ≡ is_taken self.now address }
    {
        self.addresses.has(address)
    }
}

/// Whether something may have the static address: `08` to `77`, and none of the reserved ones.
pub fn is_static(address: Addr7) -> bool
    ensures { result ≡ is_static address }
{
    matches!(address.get(), 0x08..=0x77)
}

// At each static address where an identity is declared, its index.
fn hints_for(identities: &[DeclaredIdentity]) -> [u8; ADDRESSES]
    requires { length identities.now ≤ DECLARED_COUNT }
{
    let mut hints = [0; ADDRESSES];
    for (index, declared) in identities.iter().enumerate() {
        hints[declared.address.get() as usize] = index as u8;
    }
    hints
}

// The index of the target at an address.
fn index_of(targets: &[Declared], address: Addr7) -> Option<usize>
    ensures { MatchOption result (All (λ d. d.address ≢ address) targets.now)
        (λ i. (i < length targets.now) × HoldsAt (λ d. d.address ≡ address) targets.now i) }
{
    targets.iter().position(|target| target.address == address)
}

// The index of the identity at an address. It may be this one.
fn index_at(identities: &[DeclaredIdentity], hint: usize, address: Addr7) -> Option<usize>
    ensures { MatchOption result (All (λ d. d.address ≢ address) identities.now)
        (λ i. (i < length identities.now) × HoldsAt (λ d. d.address ≡ address) identities.now i) }
{
    if hint < identities.len() && identities[hint].address == address {
        return Some(hint);
    }
    identities
        .iter()
        .position(|declared| declared.address == address)
}

// The index of an identity.
fn index_for(identities: &[DeclaredIdentity], identity: &Identity) -> Option<usize>
    ensures { MatchOption result (All (λ d. d.identity ≢ identity.now) identities.now)
        (λ i. (i < length identities.now) × HoldsAt (λ d. d.identity ≡ identity.now) identities.now i) }
{
    identities
        .iter()
        .position(|declared| declared.identity == *identity)
}
