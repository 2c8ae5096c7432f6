// The calls on a watch, and what comes of them.
use crate::cells::Verdict;

/// A call on a watch.
#[derive(Clone, Copy, PartialEq, Eq, Debug)]
pub enum Call {
    Advance { clock: u8, amount: u64 },
    Observe { marks: u32 },
    Report,
}

/// What is left of the rule: its verdict, and the cells of its residual term.
#[derive(Clone, Copy, PartialEq, Eq, Debug)]
pub struct Answer {
    pub verdict: Verdict,
    pub cells: u32,
}

/// Why a call is refused.
#[derive(Clone, Copy, PartialEq, Eq, Debug)]
pub enum WatchFault {
    /// The clock is above 7.
    Clock { clock: u8 },
    /// The residual term would have this many cells, more than 1,024.
    Cells { cells: u32 },
}
