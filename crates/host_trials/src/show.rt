//! The lines of a case: what its shelf is, and what it answers.
use crate::alias::Alias;
use crate::callers::next_block;
use crate::input::Input;
use fault::Fault;
use host::{Host, HostFault};
use link_shelf::LinkShelf;
use path_shelf::PathShelf;
use std::io::Write;
use std::{fmt, io};

/// Bytes, to be printed.
#[derive(Clone, Copy)]
struct Hex<'a>(&'a [u8]);

/// The bytes in hexadecimal digits, or `-` where there are none.
impl fmt::Display for Hex<'_> {
    fn fmt<W: fmt::Write>(&self, f: &mut fmt::Formatter<W>) -> fmt::Result {
        if self.0.is_empty() {
            return f.write_str("-");
        }
        for byte in self.0 {
            write!(f, "{byte:02X}")?;
        }
        Ok(())
    }
}

/// A block, or why there is none.
fn show_block<W: Write>(output: &mut W, block: Result<&[u8], HostFault>) -> io::Result<()> {
    match block {
        Ok(block) => write!(output, "{}", Hex(block)),
        Err(refusal) => write!(output, "{}", Fault::from(refusal)),
    }
}

/// Where a specifier leads, or why it leads nowhere.
fn show_lead<W: Write>(output: &mut W, lead: Result<Option<u32>, HostFault>) -> io::Result<()> {
    match lead {
        Ok(Some(module)) => write!(output, "{module}"),
        Ok(None) => write!(output, "none"),
        Err(refusal) => write!(output, "{}", Fault::from(refusal)),
    }
}

/// Asks a host, whatever kind it is, the questions that come next: a line with the count, and a line for each question,
/// with the module's block, where the specifier leads and the block there.
fn show_answers<'a, W: Write, H: Host<'a>>(
    output: &mut W,
    host: &mut H,
    input: &mut Input,
) -> io::Result<Option<()>> {
    writeln!(output, "count {}", host.count())?;
    let Some(questions) = input.number() else {
        return Ok(None);
    };
    for _ in 0..questions {
        let Some(module) = input.number() else {
            return Ok(None);
        };
        let Some(specifier) = input.bytes() else {
            return Ok(None);
        };
        write!(output, "{module} {}: ", Hex(specifier))?;
        show_block(output, host.block(module))?;
        write!(output, ", ")?;
        show_lead(output, host.locate(module, specifier))?;
        write!(output, ", ")?;
        show_block(output, next_block(host, module, specifier))?;
        writeln!(output)?;
    }
    Ok(Some(()))
}

/// Asks a shelf that was checked, under another name for one specifier; a refused one has one line and no questions.
fn show_shelf<'a, W: Write, H: Host<'a> + Drop>(
    output: &mut W,
    shelf: Result<H, HostFault>,
    input: &mut Input,
) -> io::Result<Option<()>> {
    let (Some(from), Some(to)) = (input.bytes(), input.bytes()) else {
        return Ok(None);
    };
    match shelf {
        Ok(below) => show_answers(output, &mut Alias { below, from, to }, input),
        Err(refusal) => {
            writeln!(output, "{}", Fault::from(refusal))?;
            Ok(Some(()))
        }
    }
}

/// Shows the next case: 0 for a link shelf or another number for a path shelf, and the shelf's bytes.
pub(crate) fn show_case<W: Write>(output: &mut W, input: &mut Input) -> io::Result<Option<()>> {
    let (Some(kind), Some(bytes)) = (input.number(), input.bytes()) else {
        return Ok(None);
    };
    if kind == 0 {
        show_shelf(output, LinkShelf::check(bytes), input)
    } else {
        show_shelf(output, PathShelf::check(bytes), input)
    }
}
