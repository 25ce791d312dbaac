//! Laws of the lines of a script. Each function does nothing; its contract is the law.

ghost use Rattle.std.specs.Prelude.{◌≡◌, ℕ, List};
ghost use Rattle.std.specs.List.{Contains};
ghost use Rattle.kv_script.specs.declared.line.Line.{Line};
ghost use Rattle.kv_script.specs.declared.line.Line.TheVariants as lines;
ghost use Rattle.kv_script.specs.Lines.{IsLine};

/// Bytes are one line's at most.
pub fn one_line()
    ensures { (a b : Line) (bytes : List ℕ) → IsLine a bytes → IsLine b bytes → a ≡ b }
{}

/// A line that has a line feed in it is a comment.
pub fn line_feeds_are_in_comments()
    ensures { (line : Line) (bytes : List ℕ)
        → IsLine line bytes → Contains bytes 0x0a → line ≡ lines.Comment }
{}
