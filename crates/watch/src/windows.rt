// A record with a window, taken apart.
ghost use Rattle.std.specs.Prelude.{◌≡◌, ◌≢◌, Some, MatchOption};
ghost use Rattle.std.specs.Option.{option_map};
ghost use Rattle.wmtl.specs.Formula.{Timed, timed};
ghost use Rattle.rule.specs.Rules.{IsRecord, record_in, formula_in};

use crate::cells::Operator;
use crate::records::behind;
use rule::{Kind, Record, Rule};

/// The operator that joins the left side to what is left of the formula, its window, and the records of its sides.
#[derive(Clone, Copy)]
pub struct Windowed {
    pub inner: Operator,
    pub clock: u8,
    pub lower: u64,
    pub upper: u64,
    pub left: Option<u16>,
    pub right: u16,
}

impl Windowed {
    ghost use Rattle.watch.specs.Windows.{parts, IsWindowed};

    fn new(r: &Record, inner: Operator, left: Option<u16>, right: u16) -> Windowed
        ensures { result ≡ parts r.now inner left right }
    {
        Windowed {
            inner,
            clock: r.clock,
            lower: r.lower,
            upper: r.upper,
            left,
            right,
        }
    }

    // The parts of a record whose right side stands behind its left side in their chain.
    fn with_two_sides(rule: &Rule, r: &Record, inner: Operator, left: u16) -> Option<Windowed>
        ensures { IsRecord rule.now left
            → result ≡ option_map (parts r.now inner (Some left)) (record_in rule.now left).next }
    {
        let right = behind(rule, left)?;
        Some(Windowed::new(r, inner, Some(left), right))
    }

    /// The parts of record k, where the rule has one with a window.
    pub fn of(rule: &Rule, k: u16) -> Option<Windowed>
        ensures { MatchOption result ((t : Timed) → IsRecord rule.now k → formula_in rule.now k ≢ timed t)
            (IsWindowed rule.now k) }
    {
        let r = rule.record(k)?;
        let first = r.first?;
        // A `match`, and no closure for each kind: what a record stands for goes by its kind.
        match r.kind {
            Kind::Until => Windowed::with_two_sides(rule, &r, Operator::Both, first),
            Kind::Release => Windowed::with_two_sides(rule, &r, Operator::Either, first),
            Kind::Eventually => Some(Windowed::new(&r, Operator::Both, None, first)),
            Kind::Always => Some(Windowed::new(&r, Operator::Either, None, first)),
            _ => None,
        }
    }
}
