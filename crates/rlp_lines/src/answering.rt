//! What answers lines.

ghost use Rattle.std.specs.Prelude.{◌≡◌, ◌++◌, ℕ, List, string_bytes, OnOk};

use std::alloc::{AllocError, Global};

/// What answers the lines of an input, for [`answer_lines`](crate::answer_lines).
pub trait LineAnswers {
    /// The most bytes that a line may have, without its newline.
    ghost longest: { ℕ };

    /// The answer to a longer line.
    ghost long_line: { Self → List ℕ };

    /// The answer to a line that isn't longer.
    ghost answer_within: { Self → List ℕ → List ℕ };

    /// The most bytes that a line may have, without its newline.
    fn longest() -> usize
        ensures { result ≡ longest };

    /// Returns the answer to a longer line, without its newline.
    fn long_line(&self) -> &'static str
        ensures { result.now ≡ long_line self.now };

    /// Appends the answer to a line that isn't longer, without its newline. Fails with
    /// `AllocError` if memory is refused. `out` may then hold anything: the caller drops it.
    fn put_answer(&self, alloc: Global, line: &[u8], out: &mut String) -> Result<(), AllocError>
        ensures { OnOk result
            (string_bytes out.new ≡ string_bytes out.old ++ answer_within self.now line.now) };
}
