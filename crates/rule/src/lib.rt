// Rules: records, the book that holds them, and what makes a book lawful.
#![tactic(auto)]

mod conditions;
mod decode;
mod draft;
mod encode;
mod faults;
mod kinds;
mod printing;
mod refusals;
mod rules;

pub use faults::{BookFault, BufferFault, Condition, Layer, Refusal};
pub use kinds::{Kind, Record, UnknownKind};
pub use rules::Rule;
