// A trace's records carried out on a watch, in order.
ghost use Rattle.std.specs.Prelude.{◌≡◌, ℕ, List, [], length, IfOk, IfErr, ◌≢◌};
ghost use Rattle.wmtl.specs.Run.{Event};
ghost use Rattle.rule.specs.Rules.{formula_for};
ghost use Rattle.watch.specs.Seen.{Seen, TellsOf, meaning_in, watched};
ghost use Rattle.trace.specs.Layout.{call_of};
ghost use Rattle.trace.specs.Following.{extended, Follows, FinalAfter, CarriesOut, FollowsOn};

use crate::decode::{call_of, count_of};
use crate::faults::{FollowFault, Followed, Stopped};
use gauge::Gauge;
use rule::Rule;
use watch::{Answer, Watch};

// Makes the call that the bytes of record k say.
fn follow_record<G: Gauge>(watch: &mut Watch<G>, bytes: &[u8], k: u16) -> Result<(), FollowFault>
    requires { length bytes.now ≡ 16 }
    ensures done { CarriesOut G.Gauge.meaning watch.old (call_of bytes.now) k result watch.new }
    ensures begun { IfErr result (λ w. w ≢ FollowFault.Length) }
{
    let call = call_of(bytes).ok_or(FollowFault::Record { record: k })?;
    watch
        .make(call)
        .map_err(|fault| Stopped { fault, record: k })?;
    Ok(())
}

// What the watch answers after the last record; the verdict is final.
fn answer_of<G: Gauge>(watch: &Watch<G>, records: u16) -> Followed
    ensures counted { result.records ≡ records }
    ensures tells { (es : List Event) → Seen G.Gauge.meaning watch.now es
        → TellsOf G.Gauge.meaning watch.now es (record { verdict = result.verdict; cells = result.cells }) }
    ensures lasts { (es : List Event) → Seen G.Gauge.meaning watch.now es
        → FinalAfter (meaning_in G.Gauge.meaning watch.now) (watched G.Gauge.meaning watch.now) es result.verdict }
{
    let Answer { verdict, cells } = watch.report();
    Followed {
        verdict,
        cells,
        records,
    }
}

/// Makes one call a record, in order, and answers the verdict and the cells after the last of them and the number of records.
/// A trace of a wrong length is refused before anything is done; at a record that is no call, or whose call the watch
/// refuses, what the records before it did stays. The verdict is the one that the run settles, and it is final.
pub fn follow<G: Gauge>(watch: &mut Watch<G>, trace: &[u8]) -> Result<Followed, FollowFault>
    ensures follows { FollowsOn G.Gauge.meaning watch.old trace.now result watch.new }
    ensures untouched { IfErr result (λ w. w ≡ FollowFault.Length → watch.new ≡ watch.old) }
{
    let records = count_of(trace).ok_or(FollowFault::Length)?;
    for (k, bytes) in trace.chunks_exact(16).enumerate() {
        follow_record(watch, bytes, k as u16)?;
    }
    Ok(answer_of(watch, records))
}

/// Follows a trace on a new watch. The verdict is the one that the trace's run alone settles, and it is final.
pub fn follow_new<G: Gauge + Drop>(
    rule: Rule,
    gauge: G,
    trace: &[u8],
) -> Result<Followed, FollowFault>
    ensures follows { Follows (G.Gauge.meaning gauge) (formula_for rule) [] trace.now result }
    ensures lasts { IfOk result (λ x.
        FinalAfter (G.Gauge.meaning gauge) (formula_for rule) (extended [] trace.now x.records) x.verdict) }
{
    let mut watch = Watch::start(rule, gauge);
    follow(&mut watch, trace)
}
