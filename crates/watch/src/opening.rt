// What an observation makes of a record: its term is put on the builder's stack.
ghost use Rattle.std.specs.Prelude.{◌≡◌, ℕ, ◌+◌, ◌-◌, ◌*◌, ◌^◌, ◌<◌, ◌≤◌};
ghost use Rattle.std.specs.Option.{option_map};
ghost use Rattle.arrayvec.specs.ArrayVec.{array_vec_len};
ghost use Rattle.wmtl.specs.Residual.{waiting, fresh_observed, waiting_observed};
ghost use Rattle.rule.specs.Rules.{IsRecord, formula_in, weight_in};
ghost use Rattle.watch.specs.Opening.{chain_observed, left_observed, InRule, most_cells, reach};
ghost use Rattle.watch.specs.Windows.{timed_of, IsWindowed, left_weight};
ghost use Rattle.watch.specs.Working.{Puts};

use crate::builder::Builder;
use crate::cells::{Operator, Wait};
use crate::observing::Observation;
use crate::records::{behind, has_mark};
use crate::windows::Windowed;
use gauge::Gauge;
use rule::Kind;

impl Builder {
    /// What an observation makes of fresh record k.
    #[cycle(opening)]
    pub fn open<G: Gauge>(&mut self, seen: &Observation<'_, G>, k: u16)
        requires range { IsRecord seen.now.rule.now k }
        requires room { array_vec_len self.old.entries + (65 - k) ≤ 1100 }
        requires small { self.old.count + most_cells seen.now.rule.now k < 2 ^ 31 }
        ensures builds { Puts seen.now.rule.now self.old self.new
            (fresh_observed (G.Gauge.meaning seen.now.gauge.now) seen.now.marks (formula_in seen.now.rule.now k)) }
        ensures count { self.new.count ≤ self.old.count + most_cells seen.now.rule.now k }
        ensures depth { array_vec_len self.new.entries ≡ array_vec_len self.old.entries + 1 }
    {
        if let Some(x) = Windowed::of(seen.rule, k) {
            let total = seen.gauge.start(x.clock);
            self.open_waiting(seen, Wait { record: k, total }, x);
            return;
        }
        let Some(r) = seen.rule.record(k) else {
            return;
        };
        // A `match`, and no closure for each kind: the definition of what an observation makes of a formula goes by its kind.
        match r.kind {
            Kind::Mark => self.push_settled(has_mark(seen.marks, r.mark)),
            Kind::NotMark => self.push_settled(!has_mark(seen.marks, r.mark)),
            Kind::All => self.open_chain(seen, r.first, Operator::Both),
            Kind::Any => self.open_chain(seen, r.first, Operator::Either),
            Kind::Next => {
                if let Some(first) = r.first {
                    self.push_fresh(first);
                }
            }
            Kind::Until | Kind::Release | Kind::Eventually | Kind::Always => (),
        }
    }

    // The operands of a chain, joined from the right.
    #[cycle(opening)]
    fn open_chain<G: Gauge>(&mut self, seen: &Observation<'_, G>, link: Option<u16>, op: Operator)
        requires range { InRule seen.now.rule.now link }
        requires room { array_vec_len self.old.entries + reach link + 1 ≤ 1100 }
        requires small { self.old.count + 5 * weight_in seen.now.rule.now link < 2 ^ 31 }
        ensures builds { Puts seen.now.rule.now self.old self.new
            (chain_observed op (G.Gauge.meaning seen.now.gauge.now) seen.now.marks seen.now.rule.now link) }
        ensures count { self.new.count ≤ self.old.count + 5 * weight_in seen.now.rule.now link }
        ensures depth { array_vec_len self.new.entries ≡ array_vec_len self.old.entries + 1 }
    {
        let Some(j) = link else {
            self.push_settled(op.neutral());
            return;
        };
        self.open_chain(seen, behind(seen.rule, j), op);
        self.open(seen, j);
        self.combine(op);
    }

    // A waiting record, joined to what an observation makes of its left side.
    #[cycle(opening)]
    fn open_left<G: Gauge>(&mut self, seen: &Observation<'_, G>, wait: Wait, x: Windowed)
        requires parts { IsWindowed seen.now.rule.now wait.«record» x }
        requires room { array_vec_len self.old.entries + (65 - wait.«record») ≤ 1100 }
        requires small { self.old.count + (1 + 5 * left_weight seen.now.rule.now x.left) < 2 ^ 31 }
        ensures builds { Puts seen.now.rule.now self.old self.new
            (left_observed x.inner (G.Gauge.meaning seen.now.gauge.now) seen.now.marks
            (option_map (formula_in seen.now.rule.now) x.left) (waiting (timed_of seen.now.rule.now x) wait.total)) }
        ensures count { self.new.count ≤ self.old.count + (1 + 5 * left_weight seen.now.rule.now x.left) }
        ensures depth { array_vec_len self.new.entries ≡ array_vec_len self.old.entries + 1 }
    {
        self.push_waiting(wait);
        if let Some(left) = x.left {
            self.open(seen, left);
            self.combine(x.inner);
        }
    }

    /// What an observation makes of a waiting record.
    #[cycle(opening)]
    pub fn open_waiting<G: Gauge>(&mut self, seen: &Observation<'_, G>, wait: Wait, x: Windowed)
        requires parts { IsWindowed seen.now.rule.now wait.«record» x }
        requires room { array_vec_len self.old.entries + (65 - wait.«record») ≤ 1100 }
        requires small { self.old.count + most_cells seen.now.rule.now wait.«record» < 2 ^ 31 }
        ensures builds { Puts seen.now.rule.now self.old self.new
            (waiting_observed (G.Gauge.meaning seen.now.gauge.now) seen.now.marks
            (timed_of seen.now.rule.now x) wait.total) }
        ensures count { self.new.count ≤ self.old.count + most_cells seen.now.rule.now wait.«record» }
        ensures depth { array_vec_len self.new.entries ≡ array_vec_len self.old.entries + 1 }
    {
        self.open_left(seen, wait, x);
        if seen.gauge.read(x.clock, wait.total) < x.lower {
            return;
        }
        self.open(seen, x.right);
        self.combine(x.inner.dual());
    }
}
