// A layer by its name.
ghost use Rattle.std.specs.Prelude.{◌≡◌, ◌≤◌, length, Some};
ghost use Rattle.std.specs.Fmt.{padded};
ghost use Rattle.rule.specs.Printing.{layer_name};

use crate::faults::Layer;
use std::fmt;

impl Layer {
    /// The layer's name.
    pub fn as_str(&self) -> &'static str
        ensures name { result.now ≡ layer_name self.now }
        ensures short { length result.now ≤ 5 }
    {
        match self {
            Layer::Book => "book",
            Layer::Trace => "trace",
            Layer::Watch => "watch",
        }
    }
}

// `Verdict` has this form too: no impl for every type with a name may stand, since `Display` belongs to std, and the gate refuses a macro.
impl fmt::Display for Layer {
    ghost output = { λ layer. Some (layer_name layer) };

    ghost styled_output = { λ layer spec. Some (padded spec (layer_name layer)) };

    fn fmt<W: fmt::Write>(&self, f: &mut fmt::Formatter<W>) -> fmt::Result {
        f.pad(self.as_str())
    }
}
