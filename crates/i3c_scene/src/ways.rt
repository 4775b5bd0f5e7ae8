ghost use Rattle.std.specs.Prelude.{◌≡◌, ◌≤◌};
ghost use Rattle.i3c_scene.specs.Pairs.{EachIsAPair, both_within, pair, within};
ghost use Rattle.i3c_scene.specs.Trying.{ways_of};

use crate::risk::Risk;

/// The ways of a frame for the devices at risk. A device's way is 0 if it isn't cut, and else 1 more than the bit at which
/// it is cut.
#[derive(Clone, Copy)]
pub struct Ways {
    /// The way for the first device.
    pub one: usize,
    /// The way for the second device, or 0 if there is none.
    pub other: usize,
}

impl Ways {
    /// The ways of two devices by their number. Pairs of ways up to n come before those with a way over n.
    fn of_pair(number: usize) -> Ways
        ensures { result ≡ pair number }
    {
        let most = number.isqrt();
        let behind = number - most * most;
        if behind < most {
            Ways {
                one: most,
                other: behind,
            }
        } else {
            Ways {
                one: behind - most,
                other: most,
            }
        }
    }

    /// These ways, each 0 if it is over `last`.
    pub(crate) fn within(self, last: usize) -> Ways
        ensures { result ≡ both_within last self }
    {
        Ways {
            one: within(last, self.one),
            other: within(last, self.other),
        }
    }
}

/// A way, or 0 if it is over `last`.
fn within(last: usize, way: usize) -> usize
    ensures { result ≡ within last way }
{
    if way <= last { way } else { 0 }
}

/// The ways of the devices at risk, by the way of their line.
pub fn ways_of(risk: &Risk, way: usize) -> Ways
    ensures { result ≡ ways_of risk.now way }
{
    match risk {
        Risk::Nobody | Risk::One(_) => Ways { one: way, other: 0 },
        Risk::Two(..) => Ways::of_pair(way),
    }
}

/// A law of lines in which two devices may lose power: each pair of ways, of any size, has a number, which is a way of the
/// line. So two devices are cut at each pair of bits.
pub fn each_is_a_pair()
    ensures { EachIsAPair }
{}
