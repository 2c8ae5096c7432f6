// Refusals as a user sees them.
ghost use Rattle.std.specs.Prelude.{◌≡◌};
ghost use Rattle.rule.specs.Books.{number_for};
ghost use Rattle.rule.specs.Faults.{book_refusal, buffer_number};

use crate::faults::{BookFault, BufferFault, Condition, Layer, Refusal};

impl Condition {
    /// The number of the refusal of a book that breaks this condition.
    pub fn number(&self) -> u8
        ensures { result ≡ number_for self.now }
    {
        *self as u8
    }
}

impl BookFault {
    // Numbers, which users read, in a `match`: variants with fields have no discriminants for them.
    // A method, and no `From`: `fault.refusal()` is a public name, and `Refusal::from(fault)` reads no plainer.
    /// The number, layer and record of this refusal.
    pub fn refusal(&self) -> Refusal
        ensures { result ≡ book_refusal self.now }
    {
        let (number, record) = match self {
            BookFault::Length => (1, 0),
            BookFault::Broken { condition, record } => (condition.number(), *record),
        };
        Refusal {
            number,
            layer: Layer::Book,
            record,
        }
    }
}

impl BufferFault {
    /// The number of this refusal.
    pub fn number(&self) -> u8
        ensures { result ≡ buffer_number self.now }
    {
        *self as u8
    }
}
