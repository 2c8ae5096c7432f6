// The logic of rules: what a rule says of a run, and why rewriting decides it. The definitions stand in specs/; each
// function below names one theorem about them, so that the check asks for its proof, and has nothing to compute.
#![tactic(auto, using(crate::proofs::Stated::theorems))]

ghost use Rattle.wmtl.specs.Theorems.{VerdictsAreExact, VerdictsAreFinal, CoveredRulesAreDecided, AdvanceInTwoParts, ResidualNumbersFit, EveryRunContinues, SettledOneWay, SettledOnlyWhereObserved};
ghost use Rattle.wmtl.specs.Worked.{WorkedRunsAreAsExpected, CoveringIsAsExpected};

// One function for each theorem, alike but for its name and its clause: each is cited by its name.

/// After any events the residual of a rule is true just where the rule is settled true, and false just where it is
/// settled false.
pub fn verdicts_are_exact()
    ensures { VerdictsAreExact }
{}

/// Where the residual is true the rule holds on every continuation of the run, where it is false on none, and later
/// events keep it.
pub fn verdicts_are_final()
    ensures { VerdictsAreFinal }
{}

/// Where the run covers the rule, the residual is true or false.
pub fn covered_rules_are_decided()
    ensures { CoveredRulesAreDecided }
{}

/// For every term: rewriting by two amounts of a clock in turn is rewriting by the two joined.
pub fn advance_in_two_parts_changes_nothing()
    ensures { AdvanceInTwoParts }
{}

/// The numbers inside a residual have 64 bits, as the theorem on two parts of an advance asks of a term.
pub fn residual_numbers_fit()
    ensures { ResidualNumbersFit }
{}

/// A check of the definitions: a continuation is there for a theorem to speak of.
pub fn every_run_has_a_continuation()
    ensures { EveryRunContinues }
{}

/// A check of the definitions: no formula is settled true and settled false at one observation.
pub fn nothing_is_settled_both_ways()
    ensures { SettledOneWay }
{}

/// A check of the definitions: at i = n, and beyond, nothing is settled.
pub fn nothing_is_settled_unobserved()
    ensures { SettledOnlyWhereObserved }
{}

/// For each run worked through, what the run settles by its definition and what the rewriting gives are as expected.
pub fn worked_runs_are_as_expected()
    ensures { WorkedRunsAreAsExpected }
{}

/// A check of the definitions: some runs cover their rule, and some do not.
pub fn covering_is_as_expected()
    ensures { CoveringIsAsExpected }
{}
