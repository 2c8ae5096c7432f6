// A pass over the cells of a stored term: its leaves are rewritten, and pairs join what became of their sides.
ghost use Rattle.std.specs.Prelude.{◌≡◌, ℕ, ◌+◌, ◌*◌, ◌^◌, ◌<◌, ◌≤◌, List, [], ◌∷◌, length};
ghost use Rattle.arrayvec.specs.ArrayVec.{array_vec_len};
ghost use Rattle.wmtl.specs.Formula.{Timed, timed};
ghost use Rattle.wmtl.specs.Residual.{Term, waiting, fresh};
ghost use Rattle.rule.specs.declared.rules.Rule.{Rule};
ghost use Rattle.rule.specs.Rules.{IsRecord, formula_in};
ghost use Rattle.watch.specs.Passes.{Good, Upward, step};
ghost use Rattle.watch.specs.Stored.{Stores, told};
ghost use Rattle.watch.specs.Working.{Builds, Puts};

use crate::builder::Builder;
use crate::cells::{Cell, Verdict, Wait};

/// What a pass makes of the leaves of a term.
pub trait Pass {
    // The rule whose records the leaves name, and what the pass makes of a term.
    ghost rule: { Self → Rule };

    ghost rewritten: { Self → Term → Term };

    // How many cells a leaf may become.
    ghost growth: { Self → ℕ };

    /// Puts what becomes of fresh record k on top of the stack.
    fn rewrite_fresh(&self, builder: &mut Builder, k: u16)
        requires room { array_vec_len builder.old.entries + 65 ≤ 1100 }
        requires small { builder.old.count + 325 < 2 ^ 31 }
        ensures builds { IsRecord (rule self.now) k
            → Puts (rule self.now) builder.old builder.new (rewritten self.now (fresh (formula_in (rule self.now) k))) }
        ensures count { builder.new.count ≤ builder.old.count + growth self.now }
        ensures depth { array_vec_len builder.new.entries ≤ array_vec_len builder.old.entries + 1 };

    /// Puts what becomes of a waiting record on top of the stack.
    fn rewrite_waiting(&self, builder: &mut Builder, wait: Wait)
        requires room { array_vec_len builder.old.entries + 65 ≤ 1100 }
        requires small { builder.old.count + 325 < 2 ^ 31 }
        ensures builds { (t : Timed) → IsRecord (rule self.now) wait.«record»
            → formula_in (rule self.now) wait.«record» ≡ timed t
            → Puts (rule self.now) builder.old builder.new (rewritten self.now (waiting t wait.total)) }
        ensures count { builder.new.count ≤ builder.old.count + growth self.now }
        ensures depth { array_vec_len builder.new.entries ≤ array_vec_len builder.old.entries + 1 };

    ghost upward: { (p : Self) → Upward (rewritten p) };

    ghost grows: { (p : Self) → (1 ≤ growth p) × (growth p ≤ 325) };
}

impl Builder {
    // Rewrites one cell of a term.
    fn rewrite_cell<P: Pass>(&mut self, pass: &P, cell: Cell)
        requires room { array_vec_len self.old.entries + 65 ≤ 1100 }
        requires small { self.old.count + 325 < 2 ^ 31 }
        ensures builds { (ts : List Term) → Good (P.rule pass.now) cell → Builds (P.rule pass.now) self.old ts
            → Builds (P.rule pass.now) self.new (step (P.rule pass.now) (P.rewritten pass.now) cell ts) }
        ensures count { self.new.count ≤ self.old.count + P.growth pass.now }
        ensures depth { array_vec_len self.new.entries ≤ array_vec_len self.old.entries + 1 }
    {
        match cell {
            Cell::Fresh(k) => pass.rewrite_fresh(self, k),
            Cell::Waiting(wait) => pass.rewrite_waiting(self, wait),
            Cell::Pair(op) => self.combine(op),
        }
    }

    /// Rewrites the term that the cells store, and leaves it alone on the stack.
    pub fn rewrite<P: Pass>(&mut self, pass: &P, cells: &[Cell])
        requires few { length cells.now ≤ 1024 }
        ensures builds { (t : Term) → told t ≡ Verdict.Undecided → Stores (P.rule pass.now) cells.now t
            → Builds (P.rule pass.now) self.new (P.rewritten pass.now t ∷ []) }
        ensures count { self.new.count ≤ P.growth pass.now * length cells.now }
    {
        self.clear();
        for cell in cells {
            self.rewrite_cell(pass, *cell);
        }
    }
}
