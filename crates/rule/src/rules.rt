// A lawful rule, loaded from a book and written to one.
ghost use Rattle.std.specs.Prelude.{◌≡◌, ℕ, ◌+◌, ◌*◌, ◌<◌, ◌≤◌, ◌++◌, length, drop, IfOk, IfErr, IfSome, OnErr, MatchOption, MatchResult};
ghost use Rattle.wmtl.specs.Formula.{mark};
ghost use Rattle.rule.specs.Conditions.{Lawful, Bare, at, blank};
ghost use Rattle.rule.specs.Books.{Says, written};
ghost use Rattle.rule.specs.Faults.{RefusedAs, buffer_number};

use crate::draft::Draft;
use crate::encode::write_records;
use crate::faults::{BookFault, BufferFault, Condition};
use crate::kinds::Record;

/// A rule: 1 to 63 records, of which record 1 is the root. Place 0, and the places past the last record, are blank.
/// No rule exists that breaks a condition of a book.
#[derive(Drop)]
pub struct Rule {
    records: [Record; 64],
    last: u16,
    ghost sized: { (1 ≤ last) × (last < 64) },
    ghost full: { length records ≡ 64 },
    ghost lawful: { Lawful records last },
    ghost bare: { Bare records last },
}

impl Rule {
    ghost use Rattle.rule.specs.Rules.{IsRecord, record_in, formula_for};

    /// Record 1 alone, which is mark 0.
    pub fn new() -> Rule
        ensures last { result.last ≡ 1 }
        ensures blank { (k : ℕ) → at result.records k ≡ blank }
        ensures formula { formula_for result ≡ mark 0 }
    {
        Rule {
            records: [Record::BLANK; 64],
            last: 1,
        }
    }

    /// The last record's number.
    pub fn last(&self) -> u16
        ensures { result ≡ self.now.last }
    {
        self.last
    }

    /// Record k, where the rule has one.
    pub fn record(&self, k: u16) -> Option<Record>
        ensures number { MatchOption result (¬ (IsRecord self.now k)) (λ _. IsRecord self.now k) }
        ensures value { IfSome result (λ x. x ≡ record_in self.now k) }
    {
        if k < 1 || self.last < k {
            return None;
        }
        Some(self.records[k as usize])
    }

    // The rule that a book says.
    fn read(book: &[u8]) -> Result<Rule, BookFault>
        ensures says { MatchResult result (λ x. Says book.now x.records x.last) (RefusedAs book.now) }
        ensures again { IfOk result (λ x. written x.records x.last ≡ book.now) }
    {
        let draft = Draft::read(book)?;
        for condition in [
            Condition::Fields,
            Condition::Windows,
            Condition::Links,
            Condition::Operands,
        ] {
            draft.ask(condition)?;
        }
        let Draft { records, last } = draft;
        Ok(Rule { records, last })
    }

    /// Makes this the rule that the book says, and answers its last record's number. A refused book leaves the rule as
    /// it was.
    pub fn load(&mut self, book: &[u8]) -> Result<u16, BookFault>
        ensures loads { MatchResult result (Says book.now self.new.records) (RefusedAs book.now) }
        ensures last { IfOk result (λ last. self.new.last ≡ last) }
        ensures writes_back { IfOk result (λ last. written self.new.records last ≡ book.now) }
        ensures unchanged { OnErr result (self.new ≡ self.old) }
    {
        let rule = Rule::read(book)?;
        let last = rule.last;
        *self = rule;
        Ok(last)
    }

    /// Writes the rule's book at the front of the buffer, and answers its length. The rest of the buffer stays, and a
    /// buffer that is too short stays whole.
    pub fn write(&self, buf: &mut [u8]) -> Result<usize, BufferFault>
        ensures length { IfOk result (λ n. n ≡ 24 * (self.now.last + 1)) }
        ensures writes { IfOk result (λ n. buf.new ≡ written self.now.records self.now.last ++ drop n buf.old) }
        ensures refuses { IfErr result (λ f. buffer_number f ≡ 7) }
        ensures too_short { OnErr result (length buf.old < 24 * (self.now.last + 1)) }
        ensures unchanged { OnErr result (buf.new ≡ buf.old) }
        ensures loads_back { Says (written self.now.records self.now.last) self.now.records self.now.last }
    {
        let n = 24 * (self.last as usize + 1);
        if buf.len() < n {
            return Err(BufferFault::TooShort);
        }
        write_records(&self.records[..self.last as usize + 1], buf);
        Ok(n)
    }
}
