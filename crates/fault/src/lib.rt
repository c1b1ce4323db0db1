//! Faults: how a refused call is described, whatever layer refused it. docs/FAULTS.md lists them all.
#![tactic(auto)]

ghost use Rattle.std.specs.Prelude.{Some};
ghost use Rattle.fault.specs.Line.{fault_line, line_text};

use std::fmt;

/// The layer that refuses.
#[derive(Clone, Copy, PartialEq, Eq, Debug)]
pub enum Layer {
    Host = 1,
    Tree = 2,
    Findings = 3,
    Survey = 4,
}

/// A refusal as its line has it: by its number, its layer, the module it concerns (0 if none) and its place (0 unless
/// the refusal gives one).
#[derive(Clone, Copy, PartialEq, Eq, Debug)]
pub struct Fault {
    pub number: u8,
    pub layer: Layer,
    pub module: u32,
    pub place: usize,
}

/// The line of a fault, as programs print it.
impl fmt::Display for Fault {
    ghost output = { λ x. Some (fault_line x) };

    fn fmt<W: fmt::Write>(&self, f: &mut fmt::Formatter<W>) -> fmt::Result {
        write!(
            f,
            "fault {} layer {} module {} place {}",
            self.number, self.layer as u8, self.module, self.place
        )
    }
}

/// The line of what is found, or of the fault that it is refused for.
#[derive(Clone, Copy, PartialEq, Eq, Debug)]
pub struct Line<T>(pub Result<T, Fault>);

/// What is found, as its own text, or the line of the fault.
impl<T: fmt::Display> fmt::Display for Line<T> {
    ghost output = { λ x. line_text T.output x.0 };

    fn fmt<W: fmt::Write>(&self, f: &mut fmt::Formatter<W>) -> fmt::Result {
        match &self.0 {
            Ok(found) => found.fmt(f),
            Err(fault) => fault.fmt(f),
        }
    }
}
