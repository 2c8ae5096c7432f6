// A watch's refusals as a user sees them.
ghost use Rattle.std.specs.Prelude.{◌≡◌};
ghost use Rattle.watch.specs.Calls.{refusal_of};

use crate::calls::WatchFault;

impl WatchFault {
    // Numbers, which users read, in a `match`: variants with fields have no discriminants for them.
    /// The number of this refusal.
    pub fn number(&self) -> u8
        ensures { result ≡ (refusal_of self.now).number }
    {
        match self {
            WatchFault::Clock { .. } => 8,
            WatchFault::Cells { .. } => 9,
        }
    }

    /// The value that it carries: the clock, or the cells.
    pub fn value(&self) -> u32
        ensures { result ≡ (refusal_of self.now).value }
    {
        match self {
            WatchFault::Clock { clock } => u32::from(*clock),
            WatchFault::Cells { cells } => *cells,
        }
    }
}
