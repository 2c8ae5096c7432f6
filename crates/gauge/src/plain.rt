// Gauges that treat every clock alike: from 0 on, one operation adds and joins.
ghost use Rattle.std.specs.Prelude.{◌≡◌, ℕ, max, bit_or};
ghost use Rattle.gauge.specs.Plain.{
  plain,
  saturated,
  Associative,
  SumNeverFalls,
  CountNeverFalls,
  KeepsLaws,
};
ghost use Rattle.gauge.specs.PlainLaws.{plain_lawful};

use crate::Gauge;

/// What makes such a gauge: an operation of two amounts, and what a number reads.
pub trait Plain {
    ghost operation: { ℕ → ℕ → ℕ };

    ghost reading: { ℕ → ℕ };

    /// The two numbers made one.
    fn combine(&self, first: u64, second: u64) -> u64
        ensures { result ≡ operation first second };

    /// What `total` reads.
    fn reading(&self, total: u64) -> u64
        ensures { result ≡ reading total };

    ghost keeps_laws: { KeepsLaws operation reading };
}

impl<P: Plain> Gauge for P {
    ghost meaning = { λ _. plain P.Plain.operation P.Plain.reading };

    ghost lawful = { λ _. plain_lawful P.Plain.keeps_laws };

    fn start(&self, _clock: u8) -> u64 {
        0
    }

    fn add(&self, _clock: u8, total: u64, amount: u64) -> u64 {
        self.combine(total, amount)
    }

    fn read(&self, _clock: u8, total: u64) -> u64 {
        self.reading(total)
    }

    fn join(&self, _clock: u8, first: u64, second: u64) -> u64 {
        self.combine(first, second)
    }
}

/// Each way of adding is associative, and no reading falls.
pub fn plain_laws()
    ensures sum_associative { Associative saturated }
    ensures larger_associative { Associative max }
    ensures union_associative { Associative bit_or }
    ensures sum_never_falls { SumNeverFalls }
    ensures count_never_falls { CountNeverFalls }
{}
