// The operators of a term, and the constants that change nothing or everything under them.
ghost use Rattle.std.specs.Prelude.{◌≡◌, if◌then◌else◌};
ghost use Rattle.wmtl.specs.Residual.{is_true, is_false};
ghost use Rattle.watch.specs.Opening.{neutral};
ghost use Rattle.watch.specs.Stored.{absorbing, told};
ghost use Rattle.watch.specs.Windows.{dual};
ghost use Rattle.watch.specs.Working.{simplify};

use crate::cells::{Operator, Simplified, Verdict};

impl Operator {
    /// The other operator.
    pub fn dual(self) -> Operator
        ensures { result ≡ dual self }
    {
        match self {
            Operator::Both => Operator::Either,
            Operator::Either => Operator::Both,
        }
    }

    /// The constant that changes nothing under the operator.
    pub fn neutral(self) -> bool
        ensures { (if result then is_true else is_false) ≡ neutral self }
    {
        match self {
            Operator::Both => true,
            Operator::Either => false,
        }
    }

    /// The verdict that absorbs every other under the operator.
    pub fn absorbing(self) -> Verdict
        ensures { result ≡ told (absorbing self) }
    {
        Verdict::from(!self.neutral())
    }

    /// What comes of two terms under the operator, by their verdicts.
    pub fn simplified(self, left: Verdict, right: Verdict) -> Simplified
        ensures { result ≡ simplify self left right }
    {
        match (self, left, right) {
            (Operator::Both, Verdict::True, _) | (Operator::Either, Verdict::False, _) =>
                Simplified::Right,
            (Operator::Both, Verdict::False, _) | (Operator::Either, Verdict::True, _) =>
                Simplified::Absorbed,
            (Operator::Both, Verdict::Undecided, Verdict::True)
            | (Operator::Either, Verdict::Undecided, Verdict::False) => Simplified::Left,
            (Operator::Both, Verdict::Undecided, Verdict::False)
            | (Operator::Either, Verdict::Undecided, Verdict::True) => Simplified::Absorbed,
            (_, Verdict::Undecided, Verdict::Undecided) => Simplified::Joined,
        }
    }
}

impl From<bool> for Verdict {
    ghost from_gives = { λ value verdict. verdict ≡ told (if value then is_true else is_false) };

    fn from(value: bool) -> Verdict {
        if value { Verdict::True } else { Verdict::False }
    }
}
