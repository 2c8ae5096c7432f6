// The pass of an advance.
ghost use Rattle.std.specs.Prelude.{◌≡◌, refl, MatchOption};
ghost use Rattle.wmtl.specs.Formula.{Timed, timed};
ghost use Rattle.wmtl.specs.Residual.{waiting, expired, advanced, waiting_advanced};
ghost use Rattle.rule.specs.Rules.{IsRecord, formula_in};
ghost use Rattle.watch.specs.Passes.{posted};

use crate::builder::Builder;
use crate::cells::Wait;
use crate::passes::Pass;
use crate::windows::Windowed;
use gauge::Gauge;
use rule::Rule;

/// An amount posted on a clock, for the records of a rule, as a gauge counts it.
#[derive(Clone, Copy)]
pub struct Advance<'a, G> {
    pub rule: &'a Rule,
    pub gauge: &'a G,
    pub clock: u8,
    pub amount: u64,
}

impl<'a, G: Gauge> Advance<'a, G> {
    // The number of a waiting record after the advance; none where that takes it past its window.
    fn total_after(&self, wait: Wait) -> Option<u64>
        ensures { (t : Timed) → IsRecord self.now.rule.now wait.«record»
            → formula_in self.now.rule.now wait.«record» ≡ timed t
            → let by = posted self.now.clock self.now.amount in
            let after = waiting_advanced (G.Gauge.meaning self.now.gauge.now) by t wait.total in
            MatchOption result (after ≡ expired t) (λ total. after ≡ waiting t total) }
    {
        let r = self.rule.record(wait.record)?;
        if self.clock != r.clock {
            return Some(wait.total);
        }
        let total = self.gauge.add(self.clock, wait.total, self.amount);
        if r.upper < self.gauge.read(self.clock, total) {
            None
        } else {
            Some(total)
        }
    }
}

impl<'a, G: Gauge> Pass for Advance<'a, G> {
    ghost use Rattle.watch.specs.declared.cells.Operator.TheVariants.{Both, Either};
    ghost use Rattle.std.proofs.Common.{rules};

    ghost rule = { λ a. a.rule.now };

    ghost rewritten = { λ a. advanced (G.Gauge.meaning a.gauge.now) (posted a.clock a.amount) };

    ghost growth = { λ _. 1 };

    ghost upward = { λ a. elim [ Both ↦ λ t u. refl | Either ↦ λ t u. refl ] };

    ghost grows = { Prim.search rules };

    fn rewrite_fresh(&self, builder: &mut Builder, k: u16) {
        builder.push_fresh(k);
    }

    fn rewrite_waiting(&self, builder: &mut Builder, wait: Wait) {
        if let Some(total) = self.total_after(wait) {
            builder.push_waiting(Wait { total, ..wait });
        } else if let Some(x) = Windowed::of(self.rule, wait.record) {
            builder.push_settled(!x.inner.neutral());
        }
    }
}
