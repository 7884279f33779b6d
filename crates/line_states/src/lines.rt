//! A text whose lines are read one by one.

ghost use Rattle.std.specs.Prelude.{◌≡◌, ◌<◌, ◌≤◌, ◌^◌, ◌++◌, ◌∷◌, [], length, sum, OnOk, OnErr};

use std::alloc::AllocError;

/// The lines of a text, numbered from 1.
pub trait Lines {
    ghost use Rattle.line_states.specs.Lines.{LinesState, content_at, text_weights};

    ghost state: { Self → LinesState };

    /// Appends the content of line `n`, without its break, to `out`. After an error `out` is unchanged, and the line
    /// does not count as asked for.
    fn line(&mut self, n: u64, out: &mut Vec<u16>) -> Result<(), AllocError>
        requires first { 1 ≤ n }
        requires there { n ≤ length (state self.old).contents }
        ensures content { OnOk result
            (out.new.items ≡ out.old.items ++ content_at n (state self.old).contents) }
        ensures asked { OnOk result ((state self.new).asked ≡ (state self.old).asked ++ n ∷ []) }
        ensures unread { OnErr result (out.new.items ≡ out.old.items) }
        ensures unasked { OnErr result ((state self.new).asked ≡ (state self.old).asked) }
        ensures contents { (state self.new).contents ≡ (state self.old).contents };

    /// The number of units of the lines and of breaks between them is less than 2^64.
    ghost fits: { (lines : Self) → sum (text_weights (state lines).contents) < 2 ^ 64 };
}
