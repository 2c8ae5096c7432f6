// A record of a rule: its kind, and the fields that its kind uses.
ghost use Rattle.std.specs.Prelude.{◌≡◌};
ghost use Rattle.rule.specs.Layout.{code_of, IsKindOf};

/// What a record says. The numbers are the kind bytes of a book.
#[derive(Clone, Copy, PartialEq, Eq, Debug)]
pub enum Kind {
    Mark = 1,
    NotMark = 2,
    All = 3,
    Any = 4,
    Next = 5,
    Until = 6,
    Release = 7,
    Eventually = 8,
    Always = 9,
}

/// A byte that stands for no kind.
#[derive(Clone, Copy, PartialEq, Eq, Debug)]
pub struct UnknownKind(pub u8);

impl TryFrom<u8> for Kind {
    type Error = UnknownKind;

    ghost try_from_gives = { IsKindOf };

    fn try_from(byte: u8) -> Result<Kind, UnknownKind> {
        match byte {
            1 => Ok(Kind::Mark),
            2 => Ok(Kind::NotMark),
            3 => Ok(Kind::All),
            4 => Ok(Kind::Any),
            5 => Ok(Kind::Next),
            6 => Ok(Kind::Until),
            7 => Ok(Kind::Release),
            8 => Ok(Kind::Eventually),
            9 => Ok(Kind::Always),
            _ => Err(UnknownKind(byte)),
        }
    }
}

impl From<Kind> for u8 {
    ghost from_gives = { λ kind byte. byte ≡ code_of kind };

    fn from(kind: Kind) -> u8 {
        kind as u8
    }
}

/// One record: kinds Mark and NotMark use the mark, kinds Until to Always the clock and the window from lower to upper,
/// all other kinds than Mark and NotMark the first operand, and every kind the next operand of the chain it stands in.
#[derive(Clone, Copy, PartialEq, Eq, Debug)]
pub struct Record {
    pub kind: Kind,
    pub mark: u8,
    pub clock: u8,
    pub reserved: u8,
    pub first: Option<u16>,
    pub next: Option<u16>,
    pub lower: u64,
    pub upper: u64,
}

impl Record {
    /// Mark 0, in a chain of its own.
    pub const BLANK: Record = Record {
        kind: Kind::Mark,
        mark: 0,
        clock: 0,
        reserved: 0,
        first: None,
        next: None,
        lower: 0,
        upper: 0,
    };
}
