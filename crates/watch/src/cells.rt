// The cells of a residual term, and what is known of a term without its cells.
ghost use Rattle.std.specs.Prelude.{◌≡◌};

/// A waiting formula: its record, and the accumulated number of its clock.
#[derive(Clone, Copy, PartialEq, Eq, Debug)]
pub struct Wait {
    pub record: u16,
    pub total: u64,
}

/// How two terms are joined.
#[derive(Clone, Copy, PartialEq, Eq, Debug)]
pub enum Operator {
    Both,
    Either,
}

/// A part of a residual term. True and false take no cell.
#[derive(Clone, Copy, PartialEq, Eq, Debug)]
pub enum Cell {
    Fresh(u16),
    Waiting(Wait),
    Pair(Operator),
}

// No `Option<bool>`: true, false and undecided are the words that users read, and a `match` names all three.
/// What is said of a rule.
#[derive(Clone, Copy, PartialEq, Eq, Debug)]
pub enum Verdict {
    True,
    False,
    Undecided,
}

/// A term on the builder's stack: where its cells begin, and its verdict.
#[derive(Clone, Copy, PartialEq, Eq, Debug)]
pub struct Entry {
    pub start: u32,
    pub verdict: Verdict,
}

// No derive: it asks for a default of `Verdict`, which is public, and no verdict stands for all.
impl Default for Entry {
    fn default() -> Entry
        ensures { result ≡ record { start = 0; verdict = Verdict.Undecided } }
    {
        Entry {
            start: 0,
            verdict: Verdict::Undecided,
        }
    }
}

// An enum, and no closure for each case: the proof speaks of the cases by their names.
/// What comes of two terms under an operator: one constant absorbs the other term, leaves it, or both stand.
#[derive(Clone, Copy, PartialEq, Eq, Debug)]
pub enum Simplified {
    Absorbed,
    Left,
    Right,
    Joined,
}
