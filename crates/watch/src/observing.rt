// The pass of an observation.
ghost use Rattle.std.specs.Prelude.{refl};
ghost use Rattle.wmtl.specs.Residual.{observed};

use crate::builder::Builder;
use crate::cells::Wait;
use crate::passes::Pass;
use crate::windows::Windowed;
use gauge::Gauge;
use rule::Rule;

/// A set of marks observed, for the records of a rule, as a gauge counts.
#[derive(Clone, Copy)]
pub struct Observation<'a, G> {
    pub rule: &'a Rule,
    pub gauge: &'a G,
    pub marks: u32,
}

impl<'a, G: Gauge> Pass for Observation<'a, G> {
    ghost use Rattle.watch.specs.declared.cells.Operator.TheVariants.{Both, Either};
    ghost use Rattle.std.proofs.Common.{rules};

    ghost rule = { λ o. o.rule.now };

    ghost rewritten = { λ o. observed (G.Gauge.meaning o.gauge.now) o.marks };

    ghost growth = { λ _. 325 };

    ghost upward = { λ o. elim [ Both ↦ λ t u. refl | Either ↦ λ t u. refl ] };

    ghost grows = { Prim.search rules };

    fn rewrite_fresh(&self, builder: &mut Builder, k: u16) {
        if 1 <= k && k <= self.rule.last() {
            builder.open(self, k);
        }
    }

    fn rewrite_waiting(&self, builder: &mut Builder, wait: Wait) {
        if let Some(x) = Windowed::of(self.rule, wait.record) {
            builder.open_waiting(self, wait, x);
        }
    }
}
