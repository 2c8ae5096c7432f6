// Layers over layers: sums, peaks and channels on the clocks of one gauge, and their divided readings.
ghost use Rattle.std.specs.Prelude.{◌≡◌, ◌↔◌, IsOk, IfOk, IfErr};
ghost use Rattle.gauge.specs.Faults.{refusal, divisor_refusal};
ghost use Rattle.gauge.specs.Layers.{IsDivisor, coarse};
ghost use Rattle.gauge.specs.Posting.{reading, reading_joined};
ghost use Rattle.gauge.specs.Rack.{rack_meaning};

use crate::{Channels, Coarse, Gauge, LayerFault, Peak, Split, Sum, post_all};

/// Clocks 0 to 3 are sums, clocks 4 and 5 are peaks, and the clocks from 6 on are channels.
pub fn rack() -> Split<Sum, Split<Peak, Channels>>
    ensures meaning { ⟦<Split<Sum, Split<Peak, Channels>> as Gauge>⟧.meaning result ≡ rack_meaning }
    ensures border { result.border ≡ 4 }
    ensures second_border { result.second.border ≡ 2 }
{
    let mut high = Split::new(Peak, Channels);
    high.set_border(2).unwrap();
    Split::new(Sum, high)
}

/// What the amounts, posted in order from the start, read on the rack below a divisor.
pub fn rack_reading(divisor: u64, clock: u8, amounts: &[u64]) -> Result<u64, LayerFault>
    ensures accepted { IsOk result ↔ IsDivisor divisor }
    ensures refused { IfErr result (λ fault. refusal fault ≡ divisor_refusal divisor) }

    // Posting the amounts in order and posting them as one read the same.
    ensures in_order { IfOk result (λ read. read ≡ reading (coarse divisor rack_meaning) clock amounts.now) }
    ensures joined { IfOk result (λ read. read ≡ reading_joined (coarse divisor rack_meaning) clock amounts.now) }
{
    let mut gauge = Coarse::new(rack());
    gauge.set_divisor(divisor)?;
    let total = post_all(&gauge, clock, gauge.start(clock), amounts);
    Ok(gauge.read(clock, total))
}
