// A layer of two gauges: a border of clock numbers lies between them.
ghost use Rattle.std.specs.Prelude.{◌≡◌, ◌↔◌, IsOk, OnOk, IfErr, OnErr};
ghost use Rattle.gauge.specs.Faults.{refusal, border_refusal};
ghost use Rattle.gauge.specs.Layers.{IsBorder, split};
ghost use Rattle.gauge.specs.LayerLaws.{split_lawful};

use crate::Gauge;
use crate::fault::LayerFault;

const HIGHEST_BORDER: u8 = 8;

/// Clocks below the border go to the first gauge, the others to the second under their number less the border.
#[derive(Drop)]
pub struct Split<A, B> {
    first: A,
    second: B,
    border: u8,
    ghost range: { IsBorder border },
}

impl<A, B> Split<A, B> {
    /// A new layer, with border 4.
    pub fn new(first: A, second: B) -> Self
        ensures first { result.first ≡ first }
        ensures second { result.second ≡ second }
        ensures border { result.border ≡ 4 }
    {
        Split {
            first,
            second,
            border: 4,
        }
    }

    // No function for this and `Coarse::set_divisor` (see there).
    /// Takes a border from 0 to 8; refuses any other with 13, and then changes nothing.
    pub fn set_border(&mut self, border: u8) -> Result<(), LayerFault>
        ensures accepted { IsOk result ↔ IsBorder border }
        ensures set { OnOk result (self.new.border ≡ border) }
        ensures same_first { OnOk result (self.new.first ≡ self.old.first) }
        ensures same_second { OnOk result (self.new.second ≡ self.old.second) }
        ensures refused { IfErr result (λ fault. refusal fault ≡ border_refusal border) }
        ensures unchanged { OnErr result (self.new ≡ self.old) }
    {
        if border > HIGHEST_BORDER {
            return Err(LayerFault::BorderTooHigh(border));
        }
        self.border = border;
        Ok(())
    }

    /// The first clock number of the second gauge.
    pub fn border(&self) -> u8
        ensures value { result ≡ self.now.border }
        ensures in_range { IsBorder result }
    {
        self.border
    }

    /// The gauge of the clocks below the border.
    pub fn first(&self) -> &A
        ensures { result.now ≡ self.now.first }
    {
        &self.first
    }

    /// The gauge of the clocks from the border on.
    pub fn second(&self) -> &B
        ensures { result.now ≡ self.now.second }
    {
        &self.second
    }
}

// Each method tests the border: the sides have two types, so that a method that picks one would leave a `match` for each `if`.
impl<A: Gauge, B: Gauge> Gauge for Split<A, B> {
    ghost meaning = { λ s. split s.border (A.Gauge.meaning s.first) (B.Gauge.meaning s.second) };

    ghost lawful = { λ s. split_lawful s.border _ _ (A.Gauge.lawful s.first) (B.Gauge.lawful s.second) };

    fn start(&self, clock: u8) -> u64 {
        if clock < self.border {
            self.first.start(clock)
        } else {
            self.second.start(clock - self.border)
        }
    }

    fn add(&self, clock: u8, total: u64, amount: u64) -> u64 {
        if clock < self.border {
            self.first.add(clock, total, amount)
        } else {
            self.second.add(clock - self.border, total, amount)
        }
    }

    fn read(&self, clock: u8, total: u64) -> u64 {
        if clock < self.border {
            self.first.read(clock, total)
        } else {
            self.second.read(clock - self.border, total)
        }
    }

    fn join(&self, clock: u8, first: u64, second: u64) -> u64 {
        if clock < self.border {
            self.first.join(clock, first, second)
        } else {
            self.second.join(clock - self.border, first, second)
        }
    }
}
