// Posting a list of amounts to one clock, on any gauge.
ghost use Rattle.gauge.specs.Posting.{Posted, Joined, ReadingNeverFalls, JoinedIsTheSame};

use crate::Gauge;

/// `total` with the amounts added in order.
pub fn post_all<G: Gauge>(gauge: &G, clock: u8, total: u64, amounts: &[u64]) -> u64
    ensures { Posted (G.Gauge.meaning gauge.now) clock total amounts.now result }
{
    amounts
        .iter()
        .fold(total, |sum, amount| gauge.add(clock, sum, *amount))
}

/// The one amount that adds what `first` and then the amounts of `rest` add.
pub fn join_all<G: Gauge>(gauge: &G, clock: u8, first: u64, rest: &[u64]) -> u64
    ensures { Joined (G.Gauge.meaning gauge.now) clock first rest.now result }
{
    rest.iter()
        .fold(first, |whole, amount| gauge.join(clock, whole, *amount))
}

/// On every gauge, for every list of amounts: the reading never falls, and the amounts joined give the same number.
pub fn posting_laws<G: Gauge>(gauge: &G)
    ensures never_falls { ReadingNeverFalls (G.Gauge.meaning gauge.now) }
    ensures as_joined { JoinedIsTheSame (G.Gauge.meaning gauge.now) }
{}
