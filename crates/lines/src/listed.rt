//! Lists, whatever their rows are.
ghost use Rattle.std.specs.Prelude.{ℕ, List, Some};
ghost use Rattle.std.specs.Fmt.{WritesOnOk};
ghost use Rattle.lines.specs.Listed.{listed};

use std::fmt;

/// How a row of a list is written.
// No closure: `fmt` writes to any `W` and a closure takes the formatter of one, nor has it a ghost member for the text.
pub trait Manner<R> {
    ghost text: { Self → R → List ℕ };

    /// Writes a row.
    fn write_row<W: fmt::Write>(&self, row: &R, f: &mut fmt::Formatter<W>) -> fmt::Result
    where
        Self: Sized,
        ensures { WritesOnOk W.write_str_gives f.old result (text self.now row.now) f.new };
}

/// A list of rows, each in the manner given, with commas between; `-` where there is none.
#[derive(Clone, Copy)]
pub struct Listed<'a, R, M> {
    pub manner: M,
    pub rows: &'a [R],
}

/// The rows, each in the manner given.
impl<R, M: Manner<R>> fmt::Display for Listed<'_, R, M> {
    ghost output = { λ x. Some (listed (M.text x.manner) x.rows.now) };

    #[tactic(auto, using(crate::proofs::Rows::row_written))]
    fn fmt<W: fmt::Write>(&self, f: &mut fmt::Formatter<W>) -> fmt::Result {
        let [first, more @ ..] = self.rows else {
            return f.write_str("-");
        };
        self.manner.write_row(first, f)?;
        for row in more {
            f.write_str(",")?;
            self.manner.write_row(row, f)?;
        }
        Ok(())
    }
}
