use crate::range::Pid;

/// A Bus Characteristics Register: what a device can do (I3C Basic 5.1.1.2.1).
#[derive(Clone, Copy, Debug, PartialEq, Eq, PartialOrd, Ord, Default)]
pub struct Bcr(pub u8);

/// A Device Characteristics Register: what kind of device it is (I3C Basic 5.1.1.2.2).
#[derive(Clone, Copy, Debug, PartialEq, Eq, PartialOrd, Ord, Default)]
pub struct Dcr(pub u8);

/// A Legacy Virtual Register: what a legacy I2C target can do (I3C Basic 5.1.1.2.3).
#[derive(Clone, Copy, Debug, PartialEq, Eq, PartialOrd, Ord, Default)]
pub struct Lvr(pub u8);

/// A device's identity: the 64 bits that it drives in an assignment (I3C Basic 5.1.4.2).
#[derive(Clone, Copy, Debug, PartialEq, Eq, PartialOrd, Ord, Default)]
pub struct Identity {
    /// The provisioned ID, 48 bits.
    pub pid: Pid,
    /// The bus characteristics.
    pub bcr: Bcr,
    /// The device characteristics.
    pub dcr: Dcr,
}

impl Bcr {
    ghost use Rattle.std.specs.Prelude.{◌≡◌};
    ghost use Rattle.i3c_base.specs.Numbers.{is_capable, can_interrupt, has_byte};

    /// The device can be a controller: bits 7:6 are `01`.
    pub fn capable(self) -> bool
        ensures { result ≡ is_capable self }
    {
        self.0 / 64 == 1
    }

    /// The device can interrupt: bit 1.
    pub fn interrupts(self) -> bool
        ensures { result ≡ can_interrupt self }
    {
        self.0 / 2 % 2 == 1
    }

    /// The device's interrupts have a mandatory byte: bit 2.
    pub fn has_byte(self) -> bool
        ensures { result ≡ has_byte self }
    {
        self.0 / 4 % 2 == 1
    }
}

impl Identity {
    ghost use Rattle.std.specs.Prelude.{◌≡◌, ◌<◌, ◌^◌, ◌↔◌};
    ghost use Rattle.i3c_base.specs.declared.identity.Identity.{Identity as IdentityValue};
    ghost use Rattle.i3c_base.specs.Numbers.{number_of, IsBelow, IsInRange};

    /// The identity as one number of 64 bits: the smaller one wins a contest.
    pub fn number(self) -> u64
        ensures same { result ≡ number_of self }
        ensures fits { number_of self < 2 ^ 64 }
        ensures in_range { IsInRange self }

        // numbers are ordered as identities are, by PID, then BCR, then DCR, and each is of one identity
        ensures ordered { (j : IdentityValue) → IsInRange j → IsBelow self j ↔ (result < number_of j) }
        ensures own { (j : IdentityValue) → IsInRange j → result ≡ number_of j → self ≡ j }
    {
        self.pid.get() * 65536 + self.bcr.0 as u64 * 256 + self.dcr.0 as u64
    }

    /// The identity of a number of 64 bits: its PID in the upper 48, then its BCR and its DCR.
    pub fn from_number(number: u64) -> Identity
        ensures same { number_of result ≡ number }
        ensures in_range { IsInRange result }
    {
        let Ok(pid) = Pid::new(number / 65536) else {
            unreachable!()
        };
        Identity {
            pid,
            bcr: Bcr((number / 256 % 256) as u8),
            dcr: Dcr((number % 256) as u8),
        }
    }
}
