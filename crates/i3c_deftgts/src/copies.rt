ghost use Rattle.std.specs.Prelude.{◌≡◌};
ghost use Rattle.i3c_base.specs.State.{is_usable, no_identities};
ghost use Rattle.i3c_deftgts.specs.Copies.{legacies_in, row_in};
ghost use Rattle.i3c_deftgts.specs.Entries.{HaveOwnAddresses};

use crate::entries::{Entry, List};
use i3c_base::{Addr7, Addresses};
use i3c_table::{Legacies, Row, Table};

impl List {
    ghost use Rattle.std.specs.Prelude.{◌≡◌};
    ghost use Rattle.i3c_deftgts.specs.Copies.{table_of};

    /// The table of whoever knows a bus by this list alone: its rows and its legacy targets, no identities, and no
    /// current list. Nothing is declared in it, since a list doesn't tell declarations: a new controller has its own
    /// (`Table::take_over`). Left out are devices at addresses that none may be given, and legacy targets that may not
    /// be declared or come after sixteen others.
    pub fn to_table(&self) -> Table
        ensures { result ≡ table_of self.now }
    {
        let entries = self.entries();
        let mut table = Table::new(legacies_in(entries));
        for entry in entries {
            if let Some(row) = row_in(entry) {
                table.put(row);
            }
        }
        table
    }
}

// The legacy targets among entries, except for those that may not be declared.
fn legacies_in(entries: &[Entry]) -> Legacies
    requires { HaveOwnAddresses entries.now }
    ensures { result ≡ record { legacy = legacies_in entries.now; declared = no_identities } }
{
    let mut legacies = Legacies::new();
    for entry in entries {
        if let Entry::Legacy { address, lvr } = entry {
            let _ = legacies.add(*address, *lvr);
        }
    }
    legacies
}

// The row of a device's entry, if its address may be given.
fn row_in(entry: &Entry) -> Option<Row>
    ensures { result ≡ row_in entry.now }
{
    match entry {
        Entry::Device {
            address,
            dcr,
            bcr,
            fixed,
        } if is_usable(*address) => Some(Row {
            address: *address,
            bcr: *bcr,
            dcr: *dcr,
            identity: None,
            fixed: *fixed,
        }),
        _ => None,
    }
}

// Whether devices may be given the address.
fn is_usable(address: Addr7) -> bool
    ensures { result ≡ is_usable address }
{
    Addresses::usable().has(address)
}
