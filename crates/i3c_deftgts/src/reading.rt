ghost use Rattle.std.specs.Prelude.{◌≡◌, ◌<◌, ◌∷◌, Some, None, MatchResult, length, map};
ghost use Rattle.std.specs.List.{position_from};
ghost use Rattle.i3c_deftgts.specs.Layout.{bytes};
ghost use Rattle.i3c_deftgts.specs.Reading.{address_in, entry_fault, first_entry, first_fault, has_wrong_t, is_count, later_entries, later_entry, ReadAs};

use crate::entries::{Entry, Gathered, List};
use crate::faults::ListFault;
use i3c_base::{Addr7, Bcr, Dcr, Lvr};
use i3c_word::{Word, read_word};

/// Reads the words after the code as a list (DEFTGTS, I3C Basic 5.1.9.3.7). Bit 0 of the words with addresses isn't
/// looked at, and `7E` as the static address of the first entry stands for none. Of several faults the one that
/// `ListFault` names first is told, and of these the first word or entry.
pub fn read_list(words: &[Word]) -> Result<List, ListFault>
    ensures { MatchResult result (λ list. ReadAs words.now list) (λ fault. first_fault words.now ≡ Some fault) }
{
    if let Some(number) = first_wrong_t(words) {
        return Err(ListFault::Parity(number));
    }
    let [count, address, dcr, bcr, fixed, rest @ ..] = words else {
        return Err(ListFault::Truncated);
    };
    if rest.len() % 4 != 0 {
        return Err(ListFault::Truncated);
    }
    if !is_count(count.byte, 1 + rest.len() / 4) {
        return Err(ListFault::Count);
    }
    let Some(first) = first_entry(address.byte, dcr.byte, bcr.byte, fixed.byte) else {
        return Err(ListFault::Address(1));
    };
    read_later(first, rest)
}

// Reads the entries after the first one.
fn read_later(first: Entry, words: &[Word]) -> Result<List, ListFault>
    requires { length words.now < 1024 }
    ensures { MatchResult result
        (λ list. (entry_fault (Some first ∷ later_entries (bytes words.now)) ≡ None)
        × (Some first ∷ later_entries (bytes words.now) ≡ map Some list))
        (λ fault. entry_fault (Some first ∷ later_entries (bytes words.now)) ≡ Some fault) }
{
    let mut gathered = Gathered::new();
    gathered.insert(first);
    let mut twice = false;
    let mut number = 1;
    let mut rest = words;
    while let [address, code, bcr, fixed, more @ ..] = rest {
        number += 1;
        let Some(entry) = later_entry(address.byte, code.byte, bcr.byte, fixed.byte) else {
            return Err(ListFault::Address(number));
        };
        if gathered.insert(entry).is_some() {
            twice = true;
        }
        rest = more;
    }
    if twice {
        return Err(ListFault::Twice);
    }
    Ok(gathered.into_list())
}

// The first word with a wrong T bit, counted from 1.
fn first_wrong_t(words: &[Word]) -> Option<usize>
    ensures { result ≡ position_from has_wrong_t 1 words.now }
{
    for (index, word) in words.iter().enumerate() {
        if has_wrong_t(word) {
            return Some(index + 1);
        }
    }
    None
}

// Whether a word has a wrong T bit.
fn has_wrong_t(word: &Word) -> bool
    ensures { result ≡ has_wrong_t word.now }
{
    read_word(*word).is_err()
}

// Whether a count fits this number of entries, with the first one counted or not.
fn is_count(count: u8, entries: usize) -> bool
    ensures { result ≡ is_count count entries }
{
    let count = count as usize;
    count == entries || count + 1 == entries
}

// The first entry, of its four bytes, if it has a dynamic address.
fn first_entry(address: u8, dcr: u8, bcr: u8, fixed: u8) -> Option<Entry>
    ensures { result ≡ first_entry address dcr bcr fixed }
{
    let fixed = match fixed / 2 {
        0x7E => None,
        _ => address_in(fixed),
    };
    Some(Entry::Device {
        address: address_in(address)?,
        dcr: Dcr(dcr),
        bcr: Bcr(bcr),
        fixed,
    })
}

// Another entry, of its four bytes, if it has an address.
fn later_entry(address: u8, code: u8, bcr: u8, fixed: u8) -> Option<Entry>
    ensures { result ≡ later_entry address code bcr fixed }
{
    let fixed = address_in(fixed);
    match (address_in(address), fixed) {
        (Some(address), fixed) => Some(Entry::Device {
            address,
            dcr: Dcr(code),
            bcr: Bcr(bcr),
            fixed,
        }),
        (None, Some(address)) => Some(Entry::Legacy {
            address,
            lvr: Lvr(code),
        }),
        (None, None) => None,
    }
}

// The address in bits 7:1 of a byte, if it isn't 0.
fn address_in(byte: u8) -> Option<Addr7>
    ensures { result ≡ address_in byte }
{
    match Addr7::new(byte / 2) {
        Ok(address) if address.get() != 0 => Some(address),
        _ => None,
    }
}
