// The peak: the largest amount counts. It treats every clock alike.
ghost use Rattle.std.specs.Prelude.{max};
ghost use Rattle.gauge.specs.PlainLaws.{peak_keeps_laws};

use crate::Plain;

/// Keeps the larger, and reads it.
#[derive(Clone, Copy)]
pub struct Peak;

impl Plain for Peak {
    ghost operation = { max };

    ghost reading = { λ t. t };

    ghost keeps_laws = { peak_keeps_laws };

    fn combine(&self, first: u64, second: u64) -> u64 {
        first.max(second)
    }

    fn reading(&self, total: u64) -> u64 {
        total
    }
}
