// The conditions that the records of a lawful rule keep.
ghost use Rattle.std.specs.Prelude.{◌≡◌, ℕ, ◌+◌, ◌<◌, ◌≤◌, false, length, MatchResult};
ghost use Rattle.rule.specs.Conditions.{marked, windowed, fields_ok, window_ok, forward, links_ok, count_ok, holds, Each, Countable};
ghost use Rattle.rule.specs.Conditions.{names as names_link, named as named_in, operands as operands_of};

use crate::draft::Draft;
use crate::faults::{BookFault, Condition};
use crate::kinds::{Kind, Record};

impl Kind {
    fn is_marked(self) -> bool
        ensures { result ≡ marked self }
    {
        matches!(self, Kind::Mark | Kind::NotMark)
    }

    fn is_windowed(self) -> bool
        ensures { result ≡ windowed self }
    {
        matches!(
            self,
            Kind::Until | Kind::Release | Kind::Eventually | Kind::Always
        )
    }

    // Whether a record of this kind may have n operands.
    fn takes(self, n: u16) -> bool
        ensures { result ≡ count_ok self n }
    {
        match self {
            Kind::Mark | Kind::NotMark => n == 0,
            Kind::All | Kind::Any => 2 <= n,
            Kind::Next | Kind::Eventually | Kind::Always => n == 1,
            Kind::Until | Kind::Release => n == 2,
        }
    }
}

impl Record {
    fn fields_ok(&self) -> bool
        ensures { result ≡ fields_ok self.now }
    {
        let top_mark = if self.kind.is_marked() { 31 } else { 0 };
        let top_clock = if self.kind.is_windowed() { 7 } else { 0 };
        self.mark <= top_mark
            && self.clock <= top_clock
            && self.reserved == 0
            && (!self.kind.is_marked() || self.first.is_none())
            && (self.kind.is_windowed() || (self.lower == 0 && self.upper == 0))
    }

    fn window_ok(&self) -> bool
        ensures { result ≡ window_ok self.now }
    {
        self.lower <= self.upper && self.upper <= 1_000_000_000_000
    }
}

fn is_forward(last: u16, k: u16, link: Option<u16>) -> bool
    ensures { result ≡ forward last k link }
{
    match link {
        None => true,
        Some(j) => k < j && j <= last,
    }
}

fn names(link: Option<u16>, k: u16) -> u16
    ensures count { result ≡ names_link link k }
    ensures once { result ≤ 1 }
{
    match link {
        Some(j) if j == k => 1,
        _ => 0,
    }
}

// How often the links of the records name record k.
fn named(records: &[Record], k: u16) -> u16
    requires { length records.now ≤ 64 }
    ensures { result ≡ named_in records.now k }
{
    // No `sum`: tried, and what it comes to, and that it fits, was not proved.
    let mut n = 0;
    for r in records {
        n += names(r.first, k) + names(r.next, k);
    }
    n
}

// `k ≤ self.now.last` stands in each method on record k: links, refusals and users share the number, a plain `u16`.
impl Draft {
    fn links_ok(&self, k: u16) -> bool
        requires { k ≤ self.now.last }
        ensures { result ≡ links_ok self.now.records self.now.last k }
    {
        let r = self.records[k as usize];
        if !is_forward(self.last, k, r.first) || !is_forward(self.last, k, r.next) {
            return false;
        }
        if k < 2 {
            return r.next.is_none();
        }
        named(&self.records[..self.last as usize + 1], k) == 1
    }

    // How many operands record k has.
    fn operands(&self, k: u16) -> u16
        requires within { k ≤ self.now.last }
        requires linked { Each self.now.last (links_ok self.now.records self.now.last) }
        ensures { result ≡ operands_of self.now.records self.now.last k }
    {
        // No iterator: tried with `successors` and `count`, and that the walk ends and links lie inside was not proved.
        let mut n = 0;
        let mut link = self.records[k as usize].first;
        while let Some(j) = link {
            n += 1;
            link = self.records[j as usize].next;
        }
        n
    }

    // A `match`, and no closure for each condition: the definition that it meets goes by the condition too.
    fn keeps(&self, condition: Condition, k: u16) -> bool
        requires within { k ≤ self.now.last }
        requires countable { Countable condition self.now.records self.now.last }
        ensures { result ≡ holds condition self.now.records self.now.last k }
    {
        let r = &self.records[k as usize];
        match condition {
            Condition::Kinds => true,
            Condition::Fields => r.fields_ok(),
            Condition::Windows => r.window_ok(),
            Condition::Links => self.links_ok(k),
            Condition::Operands => r.kind.takes(self.operands(k)),
        }
    }

    /// Whether every record keeps the condition; else a record that breaks it.
    pub fn ask(&self, condition: Condition) -> Result<(), BookFault>
        requires { Countable condition self.now.records self.now.last }
        ensures { let kept = holds condition self.now.records self.now.last in
            MatchResult result (λ _. Each self.now.last kept)
            (λ f. (k : ℕ) × (f ≡ BookFault.Broken condition k) × (k ≤ self.now.last) × (kept k ≡ false)) }
    {
        // Over numbers, which links and refusals name: a loop over the records would count them beside.
        for record in 0..=self.last {
            if !self.keeps(condition, record) {
                return Err(BookFault::Broken { condition, record });
            }
        }
        Ok(())
    }
}
