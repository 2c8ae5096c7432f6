// What comes of following a trace.
use watch::{Verdict, WatchFault};

/// What a whole trace came to: the verdict and the cells after its last record, and the records carried out.
#[derive(Clone, Copy, PartialEq, Eq, Debug)]
pub struct Followed {
    pub verdict: Verdict,
    pub cells: u32,
    pub records: u16,
}

/// The watch's own fault, and the trace record at which it came.
#[derive(Clone, Copy, PartialEq, Eq, Debug)]
pub struct Stopped {
    pub fault: WatchFault,
    pub record: u16,
}

/// Why a trace is not followed to its end.
#[derive(Clone, Copy, PartialEq, Eq, Debug)]
pub enum FollowFault {
    /// The length is no multiple of 16 or above 32,768.
    Length,
    /// This record is no call: its kind is not 1 or 2, or a field that it does not use is not zero.
    Record { record: u16 },
    /// The watch refused the call of a record.
    Watch(Stopped),
}
