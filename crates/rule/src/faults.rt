// Why a call is refused.

/// What is asked of each record of a book, in this order. The numbers are those of the refusals.
#[derive(Clone, Copy, PartialEq, Eq, Debug)]
pub enum Condition {
    /// Record 0 is all zero, and every other record's kind is known.
    Kinds = 2,
    /// Marks and clocks are in range, the reserved byte and all unused fields are zero.
    Fields = 3,
    /// A window's lower end is not above its upper end, and that is at most 1,000,000,000,000.
    Windows = 4,
    /// Links lead forward inside the book, the root is in no chain, and every other record is named once.
    Links = 5,
    /// Every record has the number of operands of its kind.
    Operands = 6,
}

/// Why a book is refused.
#[derive(Clone, Copy, PartialEq, Eq, Debug)]
pub enum BookFault {
    /// The length is no multiple of 24 from 48 to 1,536.
    Length,
    /// A record breaks a condition.
    Broken { condition: Condition, record: u16 },
}

/// Why nothing was written. The number is that of the refusal.
#[derive(Clone, Copy, PartialEq, Eq, Debug)]
pub enum BufferFault {
    /// The buffer is too short for what is to be written.
    TooShort = 7,
}

/// The part of the product that refused.
#[derive(Clone, Copy, PartialEq, Eq, Debug)]
pub enum Layer {
    Book,
    Trace,
    Watch,
}

/// A refusal as a user sees it: its number, the layer that refused, and the record that it names.
#[derive(Clone, Copy, PartialEq, Eq, Debug)]
pub struct Refusal {
    pub number: u8,
    pub layer: Layer,
    pub record: u16,
}
