//! A law of the definitions. The function does nothing; its contract is the law.

ghost use Rattle.std.specs.Prelude.{◌≡◌, ℕ, List};
ghost use Rattle.json_model.specs.declared.asked.Part.{Part};
ghost use Rattle.json_model.specs.Paths.{IsPath};

/// Bytes are the path of one list of parts at most.
pub fn one_path()
    ensures { (bytes : List ℕ) (p q : List Part) → IsPath p bytes → IsPath q bytes → p ≡ q }
{}
