ghost use Rattle.std.specs.Prelude.{◌≡◌};
ghost use Rattle.rtrb.specs.Ring.{IsPair};
ghost use Rattle.i3c_shared.specs.Ends.{Told};

use rtrb::{Consumer, Producer};

/// What two ends in one hand tell where they are of one ring. The two here may be of any. It does nothing at run time.
pub(crate) fn compare<T>(ring: &mut Consumer<T>, producer: &mut Producer<T>)
    ensures { (ring.new ≡ ring.old) × (producer.new ≡ producer.old) × (IsPair producer.old ring.old → Told producer.old ring.old) }
{}
