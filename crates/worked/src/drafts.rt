// Books put together record by record, lawful or not.
use arrayvec::ArrayVec;
use rule::{Kind, Layer, Refusal, Rule};

/// A book in fixed memory: up to 64 records of 24 bytes.
pub type Book = ArrayVec<u8, 1_536>;

/// The fields of a record as a book holds them.
#[derive(Clone, Copy, Default)]
pub struct Draft {
    pub kind: u8,
    pub mark: u8,
    pub clock: u8,
    pub zero: u8,
    pub first: u16,
    pub next: u16,
    pub lower: u64,
    pub upper: u64,
}

impl Draft {
    pub fn bytes(&self) -> [u8; 24] {
        let [f0, f1] = self.first.to_be_bytes();
        let [n0, n1] = self.next.to_be_bytes();
        let [l0, l1, l2, l3, l4, l5, l6, l7] = self.lower.to_be_bytes();
        let [u0, u1, u2, u3, u4, u5, u6, u7] = self.upper.to_be_bytes();
        [
            self.kind, self.mark, self.clock, self.zero, f0, f1, n0, n1, l0, l1, l2, l3, l4, l5,
            l6, l7, u0, u1, u2, u3, u4, u5, u6, u7,
        ]
    }
}

/// A record of a kind with its links.
pub fn node(kind: Kind, first: u16, next: u16) -> Draft {
    Draft {
        kind: u8::from(kind),
        first,
        next,
        ..Draft::default()
    }
}

/// A record of kind mark or not-mark.
pub fn leaf(kind: Kind, mark: u8, next: u16) -> Draft {
    Draft {
        kind: u8::from(kind),
        mark,
        next,
        ..Draft::default()
    }
}

/// A record with a window on clock 0.
pub fn window(kind: Kind, first: u16, next: u16, lower: u64, upper: u64) -> Draft {
    Draft {
        kind: u8::from(kind),
        first,
        next,
        lower,
        upper,
        ..Draft::default()
    }
}

/// A record of a kind that may be unknown.
pub fn unknown(kind: u8) -> Draft {
    Draft {
        kind,
        ..Draft::default()
    }
}

/// A full rule: all of a chain of marks, each mark by its place in the chain, from 1 on.
pub fn all_of_marks<F: Fn(u16) -> u8>(mark_at: F) -> [Draft; 63]
    requires { F.IsAlwaysCallable mark_at }
{
    let mut drafts = [node(Kind::All, 2, 0); 63];
    for (draft, k) in drafts.iter_mut().skip(1).zip(1u16..63) {
        let next = if k < 62 { k + 2 } else { 0 };
        *draft = leaf(Kind::Mark, mark_at(k), next);
    }
    drafts
}

/// The book that holds these records as 1, 2, .., up to 63.
pub fn book_of(drafts: &[Draft]) -> Book {
    let mut book = Book::new();
    let _ = book.try_extend_from_slice(&[0; 24]);
    for draft in drafts {
        let _ = book.try_extend_from_slice(&draft.bytes());
    }
    book
}

/// The refusal with this number, by this layer, at this record.
pub fn refused<T>(number: u8, layer: Layer, record: u16) -> Result<T, Refusal> {
    Err(Refusal {
        number,
        layer,
        record,
    })
}

/// What load makes of a book: the last record's number, or the refusal.
pub fn outcome(book: &[u8]) -> Result<u16, Refusal> {
    Rule::new().load(book).map_err(|fault| fault.refusal())
}

/// The same of a book that holds these records.
pub fn outcome_of(drafts: &[Draft]) -> Result<u16, Refusal> {
    outcome(&book_of(drafts))
}
