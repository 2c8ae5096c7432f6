// A list of calls on a new watch: every way of using one, with what is promised of it.
ghost use Rattle.std.specs.Prelude.{◌≡◌, ℕ, ◌≤◌, min, length, take, drop};
ghost use Rattle.rule.specs.Rules.{formula_for};
ghost use Rattle.watch.specs.Promise.{Promise};
ghost use Rattle.watch.specs.Seen.{Makes, MakesAll};

use crate::calls::{Answer, Call, WatchFault};
use crate::monitor::Watch;
use gauge::Gauge;
use rule::Rule;

impl<G: Gauge> Watch<G> {
    // A `match` on the call, and no closure: a call is data, which a trace holds and a list repeats.
    /// Makes a call, and gives what comes of it.
    pub fn make(&mut self, call: Call) -> Result<Answer, WatchFault>
        ensures { Makes G.Gauge.meaning self.old call result self.new }
    {
        match call {
            Call::Advance { clock, amount } => self.advance(clock, amount),
            Call::Observe { marks } => self.observe(marks),
            Call::Report => Ok(self.report()),
        }
    }

    // Makes the calls, and leaves what comes of each in its place.
    fn make_all(&mut self, calls: &[Call], outcomes: &mut [Result<Answer, WatchFault>])
        requires within { length calls.now ≤ length outcomes.old }
        ensures made { MakesAll G.Gauge.meaning self.old calls.now (take (length calls.now) outcomes.new)
            self.new }
        ensures rest { drop (length calls.now) outcomes.new ≡ drop (length calls.now) outcomes.old }
    {
        // By an index, and no `zip` with `iter_mut`: tried, and a proof has no name for what that leaves in the slice.
        for (k, call) in calls.iter().enumerate() {
            outcomes[k] = self.make(*call);
        }
    }
}

/// Makes the calls on a new watch, leaves what comes of each in its place among the outcomes, and answers how many were made:
/// as many as both lists have places for. The outcomes behind them stay.
pub fn drive<G: Gauge + Drop>(
    rule: Rule,
    gauge: G,
    calls: &[Call],
    outcomes: &mut [Result<Answer, WatchFault>],
) -> usize
    ensures made { result ≡ min (length calls.now) (length outcomes.old) }
    ensures rest { drop result outcomes.new ≡ drop result outcomes.old }
    ensures promise { Promise (G.Gauge.meaning gauge) (formula_for rule) (take result calls.now)
        (take result outcomes.new) }
{
    let n = calls.len().min(outcomes.len());
    let mut watch = Watch::start(rule, gauge);
    watch.make_all(&calls[..n], outcomes);
    n
}
