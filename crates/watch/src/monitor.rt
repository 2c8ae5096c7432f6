// The watch: a rule, a gauge, and the residual term of the rule after the run so far.
ghost use Rattle.std.specs.Prelude.{◌≡◌, ℕ, ◌-◌, ◌<◌, ◌≤◌, List, [], length, slice_index_or, take, OnOk, OnErr, IfErr};
ghost use Rattle.arrayvec.specs.ArrayVec.{array_vec_len};
ghost use Rattle.wmtl.specs.Run.{Event};

use crate::advancing::Advance;
use crate::builder::Builder;
use crate::calls::{Answer, Call, WatchFault};
use crate::cells::{Cell, Entry, Verdict};
use crate::observing::Observation;
use gauge::Gauge;
use rule::Rule;

// The highest number of a clock.
const LAST_CLOCK: u8 = 7;

// The most cells that a residual term may have.
const MOST_CELLS: u32 = 1024;

/// A watch on one run. Its working memory holds nothing between two calls.
// No `ArrayVec` of the cells: tried, and a watch then takes 60,040 bytes, where 60,032 are stated.
#[derive(Drop)]
pub struct Watch<G> {
    rule: Rule,
    gauge: G,
    cells: [Cell; 1024],
    len: u32,
    verdict: Verdict,
    work: Builder,
    ghost wide: { length cells ≡ 1024 },
    ghost short: { len ≤ 1024 },
}

// A function of its own: tried in place, and today's checker doesn't cover a part of a field lent as `&mut` beside another field.
// Copies the first cells.
fn copy_cells(to: &mut [Cell], from: &[Cell], count: usize)
    requires fits { (count ≤ length to.old) × (count ≤ length from.now) }
    ensures copied { take count to.new ≡ take count from.now }
{
    to[..count].copy_from_slice(&from[..count]);
}

impl<G: Gauge> Watch<G> {
    ghost use Rattle.watch.specs.Seen.{Seen, TellsOf, Makes};

    /// A new watch on a run of which nothing was seen.
    pub fn start(rule: Rule, gauge: G) -> Watch<G>
        ensures rule { result.rule ≡ rule }
        ensures gauge { result.gauge ≡ gauge }
        ensures seen { Seen G.Gauge.meaning result [] }
    {
        Watch {
            rule,
            gauge,
            cells: [Cell::Fresh(1); 1024],
            len: 1,
            verdict: Verdict::Undecided,
            work: Builder::new(),
        }
    }

    /// The verdict and the cells; nothing is altered.
    pub fn report(&self) -> Answer
        ensures value { result ≡ record { verdict = self.now.verdict; cells = self.now.len } }
        ensures tells { (es : List Event) → Seen G.Gauge.meaning self.now es
            → TellsOf G.Gauge.meaning self.now es result }
    {
        Answer {
            verdict: self.verdict,
            cells: self.len,
        }
    }

    // Takes over the one term on the builder's stack, which is then empty.
    fn take_over(&mut self)
        requires fits { self.old.work.count ≤ 1024 }
        ensures cells { take self.old.work.count self.new.cells ≡ take self.old.work.count self.old.work.cells }
        ensures len { self.new.len ≡ self.old.work.count }
        ensures verdict { self.new.verdict
            ≡ (slice_index_or self.old.work.entries.items (array_vec_len self.old.work.entries - 1)
            (record { start = 0; verdict = self.old.verdict })).verdict }
        ensures rule { self.new.rule ≡ self.old.rule }
        ensures gauge { self.new.gauge ≡ self.old.gauge }
    {
        let n = self.work.count;
        copy_cells(&mut self.cells, &self.work.cells, n as usize);
        self.len = n;
        if let Some(entry) = self.work.entries.pop() {
            self.verdict = entry.verdict;
        }
    }

    /// Posts an amount on a clock. A clock above 7 is refused, and nothing is altered.
    pub fn advance(&mut self, clock: u8, amount: u64) -> Result<Answer, WatchFault>
        ensures makes { Makes G.Gauge.meaning self.old (Call.Advance clock amount) result self.new }
        ensures accepted { OnOk result (clock ≤ 7) }
        ensures refused { IfErr result (λ w. (w ≡ WatchFault.Clock clock) × (7 < clock)) }
        ensures unchanged { OnErr result (self.new ≡ self.old) }
    {
        if clock > LAST_CLOCK {
            return Err(WatchFault::Clock { clock });
        }
        let Verdict::Undecided = self.verdict else {
            return Ok(self.report());
        };
        let pass = Advance {
            rule: &self.rule,
            gauge: &self.gauge,
            clock,
            amount,
        };
        self.work.rewrite(&pass, &self.cells[..self.len as usize]);
        self.take_over();
        Ok(self.report())
    }

    // It goes as `advance` does, but for the pass and the refusal: a function for both would take the pass, which borrows the watch.
    /// Observes a set of marks. Where the residual term would have more than 1,024 cells, that is refused, and nothing is
    /// altered but the working memory.
    pub fn observe(&mut self, marks: u32) -> Result<Answer, WatchFault>
        ensures makes { Makes G.Gauge.meaning self.old (Call.Observe marks) result self.new }
        ensures cells_unchanged { OnErr result (self.new.cells ≡ self.old.cells) }
        ensures len_unchanged { OnErr result (self.new.len ≡ self.old.len) }
        ensures verdict_unchanged { OnErr result (self.new.verdict ≡ self.old.verdict) }
    {
        let Verdict::Undecided = self.verdict else {
            return Ok(self.report());
        };
        let pass = Observation {
            rule: &self.rule,
            gauge: &self.gauge,
            marks,
        };
        self.work.rewrite(&pass, &self.cells[..self.len as usize]);
        if self.work.count > MOST_CELLS {
            return Err(WatchFault::Cells {
                cells: self.work.count,
            });
        }
        self.take_over();
        Ok(self.report())
    }
}
