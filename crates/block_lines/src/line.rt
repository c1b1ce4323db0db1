//! The lines that the program prints for a block.
ghost use Rattle.std.specs.Prelude.{Some};
ghost use Rattle.block_lines.specs.Lines.{answers_found, findings_found, names_of};

use fault::{Fault, Line};
use lines::{ByTexts, Listed, Lists};
use std::fmt;
use text::Place;

/// What one analysis comes to: its four lists, or its refusal.
pub type Part<'a> = Result<Lists<'a>, Fault>;

/// What `findings` says of a block: both analyses, or the refusal of the block.
pub type FindingsLine<'a> = Result<Report<Part<'a>>, Fault>;

/// What `answers` says of a block: the names of both analyses, or the first refusal.
pub type AnswersLine<'t, 'a> = Result<Report<Names<'t, 'a>>, Fault>;

/// What is said of a lawful block: the script test, and what each analysis comes to.
#[derive(Clone, Copy)]
pub struct Report<T> {
    pub is_script: bool,
    pub cjs: T,
    pub es: T,
}

/// Exports and re-exports by their texts, as places of a text section.
#[derive(Clone, Copy)]
pub struct Names<'t, 'a> {
    pub text: &'t [u8],
    pub exports: &'a [Place],
    pub reexports: &'a [Place],
}

/// The script answer and both parts, each its lists or its fault.
impl fmt::Display for Report<Part<'_>> {
    ghost output = { λ x. Some (findings_found x) };

    #[tactic(auto, using(fault::proofs::Shown::digit_shown, crate::proofs::Shown::part_shown))]
    fn fmt<W: fmt::Write>(&self, f: &mut fmt::Formatter<W>) -> fmt::Result {
        let script = u8::from(self.is_script);
        let cjs = Line(self.cjs);
        let es = Line(self.es);
        write!(f, "{script} | {cjs} | {es}")
    }
}

/// The exports, and the re-exports.
impl fmt::Display for Names<'_, '_> {
    ghost output = { λ x. Some (names_of x) };

    fn fmt<W: fmt::Write>(&self, f: &mut fmt::Formatter<W>) -> fmt::Result {
        let manner = ByTexts { text: self.text };
        let exports = Listed {
            manner,
            rows: self.exports,
        };
        let reexports = Listed {
            manner,
            rows: self.reexports,
        };
        write!(f, "{exports} {reexports}")
    }
}

/// The script answer and the names of both analyses.
impl fmt::Display for Report<Names<'_, '_>> {
    ghost output = { λ x. Some (answers_found x) };

    #[tactic(auto, using(fault::proofs::Shown::digit_shown))]
    fn fmt<W: fmt::Write>(&self, f: &mut fmt::Formatter<W>) -> fmt::Result {
        let script = u8::from(self.is_script);
        write!(f, "{script} {} {}", self.cjs, self.es)
    }
}
