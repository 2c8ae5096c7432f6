// The watch: a rule, a gauge, and what is left of the rule after the run so far.
#![tactic(auto)]

mod advancing;
mod builder;
mod calls;
mod cells;
mod driving;
mod monitor;
mod observing;
mod opening;
mod operators;
mod passes;
mod printing;
mod records;
mod refusals;
mod steps;
mod windows;

pub use calls::{Answer, Call, WatchFault};
pub use cells::Verdict;
pub use driving::drive;
pub use monitor::Watch;
