// The steps of a rewriting pass: terms are pushed on the builder's stack, and joined there.
ghost use Rattle.std.specs.Prelude.{◌≡◌, ℕ, ◌+◌, ◌-◌, ◌^◌, ◌<◌, ◌≤◌, List, [], ◌∷◌, ◌++◌, length, set, if◌then◌else◌};
ghost use Rattle.arrayvec.specs.ArrayVec.{array_vec_len};
ghost use Rattle.wmtl.specs.Formula.{Timed, timed};
ghost use Rattle.wmtl.specs.Residual.{Term, is_true, is_false, fresh, waiting};
ghost use Rattle.rule.specs.declared.rules.Rule.{Rule};
ghost use Rattle.rule.specs.Rules.{IsRecord, formula_in};
ghost use Rattle.watch.specs.Stored.{Stores, joined, told};
ghost use Rattle.watch.specs.Working.{Held, OnTop, Builds, Puts};

use crate::builder::Builder;
use crate::cells::{Cell, Entry, Operator, Simplified, Verdict, Wait};
use arrayvec::ArrayVec;

// `room` and `small` stand in each function that puts something on the stack: each asks for its own, and no builder has it always.
// `count` and `depth` stand beside `builds`: they hold of every stack, and `Puts` says nothing but of one that holds terms.
impl Builder {
    /// No term yet.
    pub fn new() -> Builder
        ensures { (rule : Rule) → Builds rule result [] }
    {
        Builder {
            cells: [Cell::Fresh(0); 1024],
            count: 0,
            entries: ArrayVec::new(),
        }
    }

    /// Takes all terms off the stack.
    pub fn clear(&mut self)
        ensures builds { (rule : Rule) → Builds rule self.new [] }
        ensures count { self.new.count ≡ 0 }
        ensures depth { array_vec_len self.new.entries ≡ 0 }
    {
        self.count = 0;
        self.entries.clear();
    }

    // Counts one cell more, and stores it where it has a place.
    fn write(&mut self, cell: Cell)
        requires small { self.old.count < 2 ^ 31 }
        ensures cells { self.new.cells ≡ set self.old.cells self.old.count cell }
        ensures count { self.new.count ≡ self.old.count + 1 }
        ensures entries { self.new.entries ≡ self.old.entries }
    {
        let at = self.count as usize;
        if at < 1024 {
            self.cells[at] = cell;
        }
        self.count += 1;
    }

    // An entry on top of the stack, for a term whose cells begin here.
    fn enter(&mut self, verdict: Verdict)
        requires room { array_vec_len self.old.entries < 1100 }
        ensures cells { self.new.cells ≡ self.old.cells }
        ensures count { self.new.count ≡ self.old.count }
        ensures entries { self.new.entries.items
            ≡ self.old.entries.items ++ record { start = self.old.count; verdict = verdict } ∷ [] }
        ensures depth { array_vec_len self.new.entries ≡ array_vec_len self.old.entries + 1 }
    {
        self.entries.push(Entry {
            start: self.count,
            verdict,
        });
    }

    // A `match` on `Simplified`, and no closures: the proof speaks of the cases by their names.
    // Joins the two terms on top; answers the verdict of the term that they make.
    fn meet(&mut self, op: Operator, left: Verdict, right: Entry) -> Verdict
        requires small { self.old.count < 2 ^ 31 }
        ensures meets { (rule : Rule) (below xs ys : List Cell) (t u : Term) → Stores rule xs t → Stores rule ys u
            → left ≡ told t → right ≡ record { start = length below; verdict = told u }
            → Held self.old.cells self.old.count ((below ++ ys) ++ xs)
            → OnTop rule self.new.cells self.new.count below result (joined op t u) }
        ensures count { self.new.count ≤ self.old.count + 1 }
        ensures entries { self.new.entries ≡ self.old.entries }
    {
        match op.simplified(left, right.verdict) {
            Simplified::Absorbed => {
                self.count = self.count.min(right.start);
                op.absorbing()
            }
            Simplified::Left => left,
            Simplified::Right => right.verdict,
            Simplified::Joined => {
                self.write(Cell::Pair(op));
                Verdict::Undecided
            }
        }
    }

    /// Joins the two terms on top of the stack, the upper one on the left, where there are two.
    pub fn combine(&mut self, op: Operator)
        requires small { self.old.count < 2 ^ 31 }
        ensures builds { (rule : Rule) (t u : Term) (ts : List Term) → Builds rule self.old (t ∷ (u ∷ ts))
            → Builds rule self.new (joined op t u ∷ ts) }
        ensures short { (rule : Rule) (ts : List Term) → length ts < 2 → Builds rule self.old ts
            → Builds rule self.new ts }
        ensures count { self.new.count ≤ self.old.count + 1 }
        ensures depth { (array_vec_len self.old.entries < 2 → array_vec_len self.new.entries ≡ array_vec_len self.old.entries)
            × (2 ≤ array_vec_len self.old.entries → array_vec_len self.new.entries + 1 ≡ array_vec_len self.old.entries) }
    {
        let depth = self.entries.len();
        if depth < 2 {
            return;
        }
        let left = self.entries[depth - 1];
        let right = self.entries[depth - 2];
        let verdict = self.meet(op, left.verdict, right);
        self.entries[depth - 2].verdict = verdict;
        self.entries.pop();
    }

    /// A constant on top of the stack.
    pub fn push_settled(&mut self, value: bool)
        requires room { array_vec_len self.old.entries < 1100 }
        ensures builds { (rule : Rule) → Puts rule self.old self.new (if value then is_true else is_false) }
        ensures count { self.new.count ≡ self.old.count }
        ensures depth { array_vec_len self.new.entries ≡ array_vec_len self.old.entries + 1 }
    {
        self.enter(Verdict::from(value));
    }

    // No function for this and `push_waiting`: each puts another term on the stack, of which its contract speaks.
    /// A fresh record on top of the stack.
    pub fn push_fresh(&mut self, k: u16)
        requires room { array_vec_len self.old.entries < 1100 }
        requires small { self.old.count < 2 ^ 31 }
        ensures builds { (rule : Rule) → IsRecord rule k → Puts rule self.old self.new (fresh (formula_in rule k)) }
        ensures count { self.new.count ≡ self.old.count + 1 }
        ensures depth { array_vec_len self.new.entries ≡ array_vec_len self.old.entries + 1 }
    {
        self.enter(Verdict::Undecided);
        self.write(Cell::Fresh(k));
    }

    /// A waiting record on top of the stack.
    pub fn push_waiting(&mut self, wait: Wait)
        requires room { array_vec_len self.old.entries < 1100 }
        requires small { self.old.count < 2 ^ 31 }
        ensures builds { (rule : Rule) (f : Timed) → IsRecord rule wait.«record» → formula_in rule wait.«record» ≡ timed f
            → Puts rule self.old self.new (waiting f wait.total) }
        ensures count { self.new.count ≡ self.old.count + 1 }
        ensures depth { array_vec_len self.new.entries ≡ array_vec_len self.old.entries + 1 }
    {
        self.enter(Verdict::Undecided);
        self.write(Cell::Waiting(wait));
    }
}
