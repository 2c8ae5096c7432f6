// Recorded runs: a trace's records carried out on a watch, one call a record.
#![tactic(auto)]

mod decode;
mod faults;
mod following;
mod refusals;

pub use faults::{FollowFault, Followed, Stopped};
pub use following::{follow, follow_new};
