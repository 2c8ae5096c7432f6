// From the bytes of a book to its records.
ghost use Rattle.std.specs.Prelude.{◌≡◌, ℕ, ◌+◌, ◌*◌, ◌<◌, ◌≤◌, false, length, IfSome, MatchResult};
ghost use Rattle.rule.specs.Layout.{link_of, number2, record_of};
ghost use Rattle.rule.specs.Conditions.{Each};
ghost use Rattle.rule.specs.Faults.{RefusedAs};
ghost use Rattle.rule.specs.Drafts.{IsDraftOf};
ghost use Rattle.rule.specs.Books.{last_of, part, all_zero, kind_ok, place_said, records_of};

use crate::draft::Draft;
use crate::faults::{BookFault, Condition};
use crate::kinds::{Kind, Record};

fn link_of(bytes: [u8; 2]) -> Option<u16>
    ensures { result ≡ link_of (number2 bytes 0) }
{
    let number = u16::from_be_bytes(bytes);
    (number != 0).then_some(number)
}

// No `TryFrom`: an impl is public, and outside of this crate only whole books are read.
// The record that 24 bytes hold, where its kind is known.
fn record_of(bytes: &[u8]) -> Option<Record>
    requires { length bytes.now ≡ 24 }
    ensures { result ≡ record_of bytes.now }
{
    let [
        kind,
        mark,
        clock,
        reserved,
        f0,
        f1,
        n0,
        n1,
        l0,
        l1,
        l2,
        l3,
        l4,
        l5,
        l6,
        l7,
        u0,
        u1,
        u2,
        u3,
        u4,
        u5,
        u6,
        u7,
    ] = bytes
    else {
        return None;
    };
    let kind = Kind::try_from(*kind).ok()?;
    Some(Record {
        kind,
        mark: *mark,
        clock: *clock,
        reserved: *reserved,
        first: link_of([*f0, *f1]),
        next: link_of([*n0, *n1]),
        lower: u64::from_be_bytes([*l0, *l1, *l2, *l3, *l4, *l5, *l6, *l7]),
        upper: u64::from_be_bytes([*u0, *u1, *u2, *u3, *u4, *u5, *u6, *u7]),
    })
}

// No function for this and for the length of a trace: bounds, size and what is counted differ, so it would take all that is here.
// The last record's number, where the length is that of a book.
fn last_of(book: &[u8]) -> Option<u16>
    ensures value { result ≡ last_of (length book.now) }
    ensures size { IfSome result (λ last. (1 ≤ last) × (last < 64) × (length book.now ≡ 24 * (last + 1))) }
{
    let n = book.len();
    if 48 <= n && n <= 1536 && n % 24 == 0 {
        Some((n / 24 - 1) as u16)
    } else {
        None
    }
}

fn all_zero(bytes: &[u8]) -> bool
    ensures { result ≡ all_zero bytes.now }
{
    bytes.iter().all(|b| *b == 0)
}

// What stands in place k of a rule, where these bytes are record k of a book: record 0 is all zero, and place 0 blank.
fn place_of(k: usize, bytes: &[u8]) -> Option<Record>
    requires { length bytes.now ≡ 24 }
    ensures { result ≡ place_said bytes.now k }
{
    if k == 0 {
        all_zero(bytes).then_some(Record::BLANK)
    } else {
        record_of(bytes)
    }
}

// The places of the rule that a book says, or a record that is of no known kind (record 0: that is not all zero).
fn read_records(book: &[u8], last: u16) -> Result<[Record; 64], BookFault>
    requires { (last < 64) × (length book.now ≡ 24 * (last + 1)) }
    ensures { MatchResult result (λ rs. (rs ≡ records_of book.now last) × Each last (kind_ok book.now))
        (λ f. (k : ℕ) × (f ≡ BookFault.Broken Condition.Kinds k) × (k ≤ last) × (kind_ok book.now k ≡ false)) }
{
    // By a place's number, which the refusal names too: a `zip` with the places would carry both.
    let mut records = [Record::BLANK; 64];
    for (k, bytes) in book.chunks_exact(24).enumerate() {
        match place_of(k, bytes) {
            Some(r) => records[k] = r,
            None => {
                return Err(BookFault::Broken {
                    condition: Condition::Kinds,
                    record: k as u16,
                });
            }
        }
    }
    Ok(records)
}

impl Draft {
    /// The draft of a book whose length is that of one and whose kinds are known.
    pub fn read(book: &[u8]) -> Result<Draft, BookFault>
        ensures { MatchResult result (IsDraftOf book.now) (RefusedAs book.now) }
    {
        let last = last_of(book).ok_or(BookFault::Length)?;
        let records = read_records(book, last)?;
        Ok(Draft { records, last })
    }
}
