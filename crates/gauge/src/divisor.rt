// A layer over one gauge that divides its readings.
ghost use Rattle.std.specs.Prelude.{◌≡◌, ◌↔◌, IsOk, OnOk, IfErr, OnErr};
ghost use Rattle.gauge.specs.Faults.{refusal, divisor_refusal};
ghost use Rattle.gauge.specs.Layers.{IsDivisor, coarse};
ghost use Rattle.gauge.specs.LayerLaws.{coarse_lawful};

use crate::Gauge;
use crate::fault::LayerFault;

const HIGHEST_DIVISOR: u64 = 1_000_000;

/// Reads what the gauge below reads, divided, with the fraction dropped; passes everything else on.
#[derive(Drop)]
pub struct Coarse<G> {
    inner: G,
    divisor: u64,
    ghost range: { IsDivisor divisor },
}

impl<G> Coarse<G> {
    /// A new layer, with divisor 1.
    pub fn new(inner: G) -> Self
        ensures inner { result.inner ≡ inner }
        ensures divisor { result.divisor ≡ 1 }
    {
        Coarse { inner, divisor: 1 }
    }

    // No function for this and `Split::set_border`: it would take the range, the field and the fault, so all that is written here.
    /// Takes a divisor from 1 to 1,000,000; refuses any other with 12, and then changes nothing.
    pub fn set_divisor(&mut self, divisor: u64) -> Result<(), LayerFault>
        ensures accepted { IsOk result ↔ IsDivisor divisor }
        ensures set { OnOk result (self.new.divisor ≡ divisor) }
        ensures same_inner { OnOk result (self.new.inner ≡ self.old.inner) }
        ensures refused { IfErr result (λ fault. refusal fault ≡ divisor_refusal divisor) }
        ensures unchanged { OnErr result (self.new ≡ self.old) }
    {
        if divisor < 1 || divisor > HIGHEST_DIVISOR {
            return Err(LayerFault::DivisorOutOfRange(divisor));
        }
        self.divisor = divisor;
        Ok(())
    }

    /// What readings are divided by.
    pub fn divisor(&self) -> u64
        ensures value { result ≡ self.now.divisor }
        ensures in_range { IsDivisor result }
    {
        self.divisor
    }

    /// The gauge below.
    pub fn inner(&self) -> &G
        ensures { result.now ≡ self.now.inner }
    {
        &self.inner
    }
}

impl<G: Gauge> Gauge for Coarse<G> {
    ghost meaning = { λ s. coarse s.divisor (G.Gauge.meaning s.inner) };

    ghost lawful = { λ s. coarse_lawful s.divisor _ s.range.0 (G.Gauge.lawful s.inner) };

    fn start(&self, clock: u8) -> u64 {
        self.inner.start(clock)
    }

    fn add(&self, clock: u8, total: u64, amount: u64) -> u64 {
        self.inner.add(clock, total, amount)
    }

    fn read(&self, clock: u8, total: u64) -> u64 {
        self.inner.read(clock, total) / self.divisor
    }

    fn join(&self, clock: u8, first: u64, second: u64) -> u64 {
        self.inner.join(clock, first, second)
    }
}
