// The sum: amounts add up. It treats every clock alike.
ghost use Rattle.gauge.specs.Plain.{saturated};
ghost use Rattle.gauge.specs.PlainLaws.{sum_keeps_laws};

use crate::Plain;

/// Adds up, to at most the largest u64, and reads the total.
#[derive(Clone, Copy)]
pub struct Sum;

impl Plain for Sum {
    ghost operation = { saturated };

    ghost reading = { λ t. t };

    ghost keeps_laws = { sum_keeps_laws };

    fn combine(&self, first: u64, second: u64) -> u64 {
        first.saturating_add(second)
    }

    fn reading(&self, total: u64) -> u64 {
        total
    }
}
