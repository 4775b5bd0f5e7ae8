ghost use Rattle.std.specs.Prelude.{◌≡◌};
ghost use Rattle.i3c_wave.specs.Timing.{high_ns, lasting, low_ns, timing_of};

use crate::levels::Level;
use i3c_base::Addresses;
use i3c_frame::Symbol;

/// How long SCL is low and high for a push-pull bit, in ns: 12.5 MHz. The standard's least are 24 ns each, and a high time
/// of 41 ns at most stays below the spike filter of a legacy target (I3C Basic 6.2).
const PUSH_PULL_LOW: u64 = 40;

const PUSH_PULL_HIGH: u64 = 40;

/// The same for an open-drain bit: low for 200 ns at least (I3C Basic 6.2).
const OPEN_DRAIN_LOW: u64 = 200;

const OPEN_DRAIN_HIGH: u64 = 40;

/// The same where legacy targets hear the bit: Fast-mode Plus, low for 500 ns and high for 260 ns at least, 1 MHz at most
/// (I3C Basic 6.2).
const LEGACY_LOW: u64 = 500;

const LEGACY_HIGH: u64 = 500;

/// How the bits of a symbol are timed (I3C Basic 6.2).
#[derive(Clone, Copy)]
pub enum Timing {
    /// One device drives SDA both ways.
    PushPull,
    /// Several devices may pull SDA low.
    OpenDrain,
    /// Legacy targets hear it too.
    Legacy,
}

impl Timing {
    /// The timing of a symbol on a bus with legacy targets at these addresses. START, repeated START and STOP are timed for
    /// legacy targets, and so are their headers and words. Other headers, identities and address bytes are open drain.
    pub fn of(legacies: Addresses, symbol: &Symbol) -> Timing
        ensures { result ≡ timing_of legacies.0 symbol.now }
    {
        match *symbol {
            Symbol::Start | Symbol::Repeated | Symbol::Stop => Timing::Legacy,
            Symbol::LegacyWord { .. } => Timing::Legacy,
            Symbol::Header { address, .. } if legacies.has(address) => Timing::Legacy,
            Symbol::Header { .. } => Timing::OpenDrain,
            Symbol::Identity(_) | Symbol::AddressByte { .. } => Timing::OpenDrain,
            Symbol::Word(_) => Timing::PushPull,
        }
    }

    /// How long a level lasts, in ns.
    pub fn lasting(self, level: Level) -> u64
        ensures { result ≡ lasting self level }
    {
        if level.scl { self.high() } else { self.low() }
    }

    /// How long SCL is low for a bit, in ns.
    fn low(self) -> u64
        ensures { result ≡ low_ns self }
    {
        match self {
            Timing::PushPull => PUSH_PULL_LOW,
            Timing::OpenDrain => OPEN_DRAIN_LOW,
            Timing::Legacy => LEGACY_LOW,
        }
    }

    /// How long SCL is high for a bit, in ns.
    fn high(self) -> u64
        ensures { result ≡ high_ns self }
    {
        match self {
            Timing::PushPull => PUSH_PULL_HIGH,
            Timing::OpenDrain => OPEN_DRAIN_HIGH,
            Timing::Legacy => LEGACY_HIGH,
        }
    }
}
