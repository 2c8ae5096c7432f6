// Gauges: what a clock counts. For each clock: where its number starts, how amounts add to it, how it is read.
#![tactic(auto)]

ghost use Rattle.std.specs.Prelude.{◌≡◌};
ghost use Rattle.gauge.specs.Meaning.{Meaning, Lawful};

mod border;
mod channels;
mod divisor;
mod fault;
mod layered;
mod peak;
mod plain;
mod posting;
mod sum;

pub use border::Split;
pub use channels::Channels;
pub use divisor::Coarse;
pub use fault::LayerFault;
pub use layered::{rack, rack_reading};
pub use peak::Peak;
pub use plain::{Plain, plain_laws};
pub use posting::{join_all, post_all, posting_laws};
pub use sum::Sum;

/// What a clock counts. Every method answers for every clock and number, and leaves the gauge as it is.
pub trait Gauge {
    ghost meaning: { Self → Meaning };

    /// The number that a clock starts at.
    fn start(&self, clock: u8) -> u64
        ensures { result ≡ (meaning self.now).start clock };

    /// `total` with `amount` added.
    fn add(&self, clock: u8, total: u64, amount: u64) -> u64
        ensures { result ≡ (meaning self.now).add clock total amount };

    /// What `total` reads.
    fn read(&self, clock: u8, total: u64) -> u64
        ensures { result ≡ (meaning self.now).read clock total };

    /// The one amount that adds what `first` and then `second` add.
    fn join(&self, clock: u8, first: u64, second: u64) -> u64
        ensures { result ≡ (meaning self.now).join clock first second };

    ghost lawful: { (g : Self) → Lawful (meaning g) };
}

#[cfg(test)]
mod tests;
