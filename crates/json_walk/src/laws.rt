//! Laws of the places. The functions do nothing; their contracts are the laws.

ghost use Rattle.std.specs.Prelude.{◌≡◌, ℕ, ◌+◌, List, [], ◌∷◌, ◌++◌};
ghost use Rattle.std.specs.Prelude.{length, take, drop, Some};
ghost use Rattle.json_model.specs.declared.kinds.Shape.{Shape};
ghost use Rattle.json_model.specs.Spelled.{Tree, text, group, Parts, Document, IsText};
ghost use Rattle.json_model.specs.Moves.{at_trail};
ghost use Rattle.json_walk.specs.Places.{IsAt, ArePartsAt, StaysRound};
ghost use Rattle.json_walk.specs.Telling.{first_tree, part_at, parts_behind};
ghost use Rattle.json_walk.specs.Telling.{parts_from, tree_end};

/// A text's value stands behind its blanks; the parts of an object or an array stand behind its
/// bracket; the value of the first of some parts stands where it is told, and the parts behind it,
/// or from one of any number on, do.
pub fn places_lead_on()
    ensures root { (most : ℕ) (d : Document) (bytes : List ℕ) → IsText most d bytes
        → IsAt bytes (length d.before) d.tree }
    ensures inside { (bytes : List ℕ) (at : ℕ) (shape : Shape) (ps : Parts)
        → IsAt bytes at (group shape ps) → ArePartsAt bytes (at + 1) shape ps }
    ensures value { (bytes : List ℕ) (at : ℕ) (shape : Shape) (ps : Parts)
        → ArePartsAt bytes at shape ps → IsAt bytes (part_at at ps).value (first_tree ps) }
    ensures behind { (bytes : List ℕ) (at : ℕ) (shape : Shape) (ps : Parts) (from : ℕ)
        (left : Parts) → ArePartsAt bytes at shape ps → parts_behind at ps ≡ Some (from, left)
        → ArePartsAt bytes from shape left }
    ensures numbered { (bytes : List ℕ) (at : ℕ) (shape : Shape) (ps : Parts) (k from : ℕ)
        (left : Parts) → ArePartsAt bytes at shape ps → parts_from k at ps ≡ Some (from, left)
        → ArePartsAt bytes from shape left }
{}

/// A change of the value at a place leaves the bytes before and behind that place: of a text's
/// value, and of a part's value where it is one of a value of which that is known.
pub fn changes_stay_within()
    ensures whole { (most : ℕ) (d : Document) (bytes : List ℕ) → IsText most d bytes
        → StaysRound (λ f. d.before ++ (text (f d.tree) ++ d.after)) (length d.before) d.tree }
    ensures part { (change : (Tree → Tree) → List ℕ) (at : ℕ) (shape : Shape) (ps : Parts)
        (k from : ℕ) (left : Parts) → StaysRound change at (group shape ps)
        → parts_from k (at + 1) ps ≡ Some (from, left)
        → StaysRound (λ f. change (λ t. at_trail (k ∷ []) f t)) (part_at from left).value
        (first_tree left) }
    ensures spliced { (change : (Tree → Tree) → List ℕ) (bytes : List ℕ) (at : ℕ) (t : Tree)
        → StaysRound change at t → change (λ u. u) ≡ bytes → (f : Tree → Tree)
        → change f ≡ take at bytes ++ (text (f t) ++ drop (tree_end at t) bytes) }
{}
