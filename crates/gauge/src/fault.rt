// Why a layer refuses a setting.
ghost use Rattle.std.specs.Prelude.{◌≡◌, Some};
ghost use Rattle.gauge.specs.Faults.{refusal, fault_text};

use std::error::Error;
use std::fmt;

#[derive(Clone, Copy, PartialEq, Eq, Debug)]
pub enum LayerFault {
    DivisorOutOfRange(u64),
    BorderTooHigh(u8),
}

impl LayerFault {
    // Numbers, which users read, in a `match`: variants with fields have no discriminants for them.
    /// The refusal's number, for a user.
    pub fn number(&self) -> u8
        ensures { result ≡ (refusal self.now).number }
    {
        match self {
            LayerFault::DivisorOutOfRange(_) => 12,
            LayerFault::BorderTooHigh(_) => 13,
        }
    }

    /// The value that was refused.
    pub fn value(&self) -> u64
        ensures { result ≡ (refusal self.now).value }
    {
        match self {
            LayerFault::DivisorOutOfRange(divisor) => *divisor,
            LayerFault::BorderTooHigh(border) => u64::from(*border),
        }
    }
}

impl fmt::Display for LayerFault {
    ghost output = { λ fault. Some (fault_text fault) };

    fn fmt<W: fmt::Write>(&self, f: &mut fmt::Formatter<W>) -> fmt::Result {
        match self {
            LayerFault::DivisorOutOfRange(divisor) => {
                write!(f, "divisor {divisor} is not from 1 to 1,000,000")
            }
            LayerFault::BorderTooHigh(border) => write!(f, "border {border} is above 8"),
        }
    }
}

impl Error for LayerFault {}
