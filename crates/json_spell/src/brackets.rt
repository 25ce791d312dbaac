//! The brackets that are open in a text.

ghost use Rattle.std.specs.Prelude.{◌≡◌, ◌<◌, ◌≤◌, ◌^◌, ◌∷◌, [], IsTrue, ◌↔◌};

use json_model::{MOST_DEEP, Shape};

/// The objects and arrays in which a place of a text stands, at most 32 of them: how many, and a
/// bit for each, the innermost lowest, that is 1 at an object.
#[derive(Clone, Copy, Debug, PartialEq, Eq)]
pub struct Brackets {
    pub count: u8,
    pub objects: u32,
    ghost few: { count ≤ 32 },
    ghost no_others: { objects < 2 ^ count },
}

impl Brackets {
    ghost use Rattle.json_spell.specs.Turns.{Parts, shapes_in};

    /// Nothing is open.
    pub fn none() -> Brackets
        ensures { shapes_in result ≡ [] }
    {
        Brackets {
            count: 0,
            objects: 0,
        }
    }

    /// Whether no more can be opened.
    pub fn is_full(self) -> bool
        ensures { IsTrue result ↔ (MOST_DEEP ≤ self.count) }
    {
        self.count >= MOST_DEEP
    }

    /// One more is open, innermost.
    pub fn with(self, shape: Shape) -> Brackets
        requires { self.count < MOST_DEEP }
        ensures { shapes_in result ≡ shape ∷ shapes_in self }
    {
        let bit = match shape {
            Shape::Object => 1,
            Shape::Array => 0,
        };
        Brackets {
            count: self.count + 1,
            objects: self.objects * 2 + bit,
        }
    }

    /// The innermost, and those round it.
    pub fn innermost(self) -> Option<(Shape, Brackets)>
        ensures { Parts (shapes_in self) result }
    {
        if self.count == 0 {
            return None;
        }
        let shape = if self.objects % 2 == 1 {
            Shape::Object
        } else {
            Shape::Array
        };
        let outer = Brackets {
            count: self.count - 1,
            objects: self.objects / 2,
        };
        Some((shape, outer))
    }
}
