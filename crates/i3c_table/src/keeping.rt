ghost use Rattle.std.specs.Prelude.{◌≡◌, ◌≢◌, ℕ, [], None, true, false, if◌then◌else◌, slice_index_or, MatchOption};
ghost use Rattle.i3c_base.specs.Numbers.{number_of};
ghost use Rattle.i3c_base.specs.Sets.{is_in};
ghost use Rattle.i3c_base.specs.State.{is_the};
ghost use Rattle.i3c_table.specs.Stored.{again_stored, home_stored, kept_at, IsInOrder};

use crate::registers::Registers;
use crate::sorted_addresses::SortedAddresses;
use i3c_base::{ADDRESSES, Addr7, Addresses, Identity};
use i3c_legacy::Legacies;

/// Keeps an address for an identity, or for nobody, and answers which addresses are kept then.
// in line, since the caller knows whether there is an identity, and has the address in a set of its own
#[inline(always)]
pub(crate) fn keep_for(
    identity: Option<Identity>,
    address: Addr7,
    kept: Addresses,
    numbers: &mut [u64; ADDRESSES],
    order: &mut SortedAddresses,
) -> Addresses
    requires ordered { IsInOrder kept.0 numbers.old order.old }
    // an address that is kept already is kept for this identity
    requires same { MatchOption identity (is_in kept.0 address ≡ false)
        (λ i. is_in kept.0 address ≡ true → slice_index_or numbers.old address 0 ≡ number_of i) }
    ensures ordered { IsInOrder result.0 numbers.new order.new }
    ensures its { kept_at result.0 numbers.new address ≡ identity }
    ensures others { (a : ℕ) → a ≢ address → is_in result.0 a ≡ is_in kept.0 a }
    ensures other_numbers { (a : ℕ) → a ≢ address → slice_index_or numbers.new a 0 ≡ slice_index_or numbers.old a 0 }
{
    match identity {
        Some(identity) => {
            numbers[address.get() as usize] = identity.number();
            order.keep(numbers, kept, address);
            kept.with(address)
        }
        None => kept.without(address),
    }
}

/// Keeps addresses of a set again, for the identities that are declared at their static addresses, and answers which are
/// kept then.
pub(crate) fn keep_homes(
    legacies: &Legacies,
    among: Addresses,
    registers: &[Registers; ADDRESSES],
    numbers: &mut [u64; ADDRESSES],
    order: &mut SortedAddresses,
) -> Addresses
    requires { order.old ≡ [] }
    ensures ordered { IsInOrder result.0 numbers.new order.new }
    ensures again { (a : ℕ) → kept_at result.0 numbers.new a ≡ (if is_in among.0 a then again_stored legacies.now.declared among.0 registers.now a else None) }
{
    let mut kept = Addresses::new();
    let mut left = among;
    while let Some(address) = left.lowest() {
        let identity = kept_again(legacies, among, registers, address);
        kept = keep_for(identity, address, kept, numbers, order);
        left = left.without(address);
    }
    kept
}

// The identity that an address of a set is kept for again.
fn kept_again(
    legacies: &Legacies,
    among: Addresses,
    registers: &[Registers; ADDRESSES],
    address: Addr7,
) -> Option<Identity>
    ensures { result ≡ again_stored legacies.now.declared among.0 registers.now address }
{
    let stored = registers[address.get() as usize];
    match stored.fixed.address() {
        Some(fixed) => {
            if !is_at(home(among, registers, fixed), address) {
                return None;
            }
            legacies.declared_at(fixed)
        }
        None => None,
    }
}

// Whether an address is this one.
fn is_at(found: Option<Addr7>, address: Addr7) -> bool
    ensures { result ≡ is_the address found }
{
    found == Some(address)
}

// The least address of a set at which a static address is stored.
fn home(among: Addresses, registers: &[Registers; ADDRESSES], fixed: Addr7) -> Option<Addr7>
    ensures { result ≡ home_stored among.0 registers.now fixed }
{
    let mut left = among;
    while let Some(address) = left.lowest() {
        if is_at(registers[address.get() as usize].fixed.address(), fixed) {
            return Some(address);
        }
        left = left.without(address);
    }
    None
}
