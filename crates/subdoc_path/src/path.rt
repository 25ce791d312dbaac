ghost use Rattle.std.specs.Prelude.{◌≡◌};

use json_model::Part;
use kv_edge::{NoMemory, Seq};
use std::marker::Model;

/// The steps from the value of a text to one in it.
#[derive(Debug, Drop)]
pub struct Path {
    parts: Seq<Part>,
}

impl Model for Path {
    ghost use Rattle.std.specs.Prelude.{List};
    ghost use Rattle.json_model.specs.declared.asked.Part.{Part};

    ghost Value = { List Part };

    ghost view = { λ path. path.parts };
}

impl Path {
    /// The path of these steps.
    pub fn new(parts: Seq<Part>) -> Path
        ensures { result ≡ parts }
    {
        Path { parts }
    }

    /// The steps in order.
    pub fn parts(&self) -> &[Part]
        ensures { result.now ≡ self.now }
    {
        self.parts.as_slice()
    }
}

/// Why bytes are no path.
#[derive(Clone, Copy, Debug, PartialEq, Eq)]
pub enum PathFault {
    /// They aren't of the grammar.
    Einval,
    /// There are more than 1,024 bytes, or more than 32 parts.
    E2big,
    /// Memory was refused.
    NoMemory,
}

impl From<NoMemory> for PathFault {
    ghost use Rattle.subdoc_path.specs.declared.path.PathFault.TheVariants as faults;

    ghost from_gives = { λ _ fault. fault ≡ faults.NoMemory };

    fn from(_refused: NoMemory) -> PathFault {
        PathFault::NoMemory
    }
}
