// Refusals of a trace as a user sees them.
ghost use Rattle.std.specs.Prelude.{◌≡◌};
ghost use Rattle.trace.specs.Faults.{follow_refusal};
ghost use Rattle.trace.specs.declared.faults.FollowFault.TheVariants.{Watch};

use crate::faults::{FollowFault, Stopped};
use rule::{Layer, Refusal};

impl From<Stopped> for FollowFault {
    ghost from_gives = { λ stopped r. r ≡ Watch stopped };

    fn from(stopped: Stopped) -> FollowFault {
        FollowFault::Watch(stopped)
    }
}

impl FollowFault {
    // Numbers, which users read, in a `match`: variants with fields have no discriminants for them.
    // A method, and no `From`: `fault.refusal()` is a public name, and `Refusal::from(fault)` reads no plainer.
    /// The number, layer and record of this refusal.
    pub fn refusal(&self) -> Refusal
        ensures { result ≡ follow_refusal self.now }
    {
        let (number, layer, record) = match self {
            FollowFault::Length => (10, Layer::Trace, 0),
            FollowFault::Record { record } => (11, Layer::Trace, *record),
            FollowFault::Watch(stopped) => (stopped.fault.number(), Layer::Watch, stopped.record),
        };
        Refusal {
            number,
            layer,
            record,
        }
    }
}
