// Channels: amounts are sets. It treats every clock alike.
ghost use Rattle.std.specs.Prelude.{bit_or, count_ones};
ghost use Rattle.gauge.specs.PlainLaws.{channels_keeps_laws};

use crate::Plain;

/// Collects the channels of a set of 64, one bit each, and reads how many it has.
#[derive(Clone, Copy)]
pub struct Channels;

impl Plain for Channels {
    ghost operation = { bit_or };

    ghost reading = { count_ones };

    ghost keeps_laws = { channels_keeps_laws };

    fn combine(&self, first: u64, second: u64) -> u64 {
        first | second
    }

    fn reading(&self, total: u64) -> u64 {
        u64::from(total.count_ones())
    }
}
