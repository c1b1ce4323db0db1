//! Export names of tree blocks: `export_names tree FILE` for people, `export_names findings [B E R U]` and
//! `export_names answers` for machines.
#![tactic(auto)]

ghost use Rattle.std.specs.Prelude.{◌≡◌, ◌||◌, ◌==◌};

use answers::{LONGEST_BLOCK, LineKind, Sizes, answer_stream, write_report};
use anyhow::{Context, bail, ensure};
use std::env::Args;
use std::fs::File;
use std::io::{BufReader, BufWriter, Read, Write};
use std::{env, io};

/// What is said where the arguments name no command.
const USAGE: &str =
    "usage: export_names tree FILE | export_names findings [B E R U] | export_names answers";

/// The bytes of a file, up to one more than a block may have: enough to see that it is too long.
fn read_block(rt: &HostRuntime, path: &str) -> io::Result<Vec<u8>> {
    let file = File::open(rt, path)?;
    let mut block = Vec::new(rt.alloc());
    file.take(LONGEST_BLOCK as u64 + 1).read_to_end(&mut block)?;
    Ok(block)
}

/// Writes the name of a file, what the block in it is, and what it lists.
fn write_named<W: Write>(
    rt: &HostRuntime,
    name: &str,
    block: &[u8],
    output: &mut W,
) -> io::Result<()> {
    write!(output, "{name}: ")?;
    write_report(rt.alloc(), Sizes::LARGEST, block, output)?;
    output.flush()
}

/// Prints what the block in a file is, and what it lists.
fn tree_command(rt: &HostRuntime, mut args: Args) -> anyhow::Result<()> {
    let (Some(path), None) = (args.next(), args.next()) else {
        bail!(USAGE);
    };
    let name = path.as_str();
    let block = read_block(rt, name)?;
    let mut output = BufWriter::new(rt.alloc(), rt.stdout())?;
    let written = write_named(rt, name, &block, &mut output);
    // A writer that is dropped writes what it holds: where memory is lacking, the name alone.
    let _ = output.into_parts();
    Ok(written?)
}

/// Whether so many sizes of tables may be given: none, or all four.
fn may_be_given(sizes: usize) -> bool
    ensures { result ≡ (sizes == 0 || sizes == 4) }
{
    matches!(sizes, 0 | 4)
}

/// The next argument, as a size.
fn next_size(args: &mut Args) -> anyhow::Result<usize> {
    let size = args.next().context(USAGE)?;
    Ok(size.as_str().parse::<u32>().ok().context(USAGE)? as usize)
}

/// The sizes of the tables that the arguments give.
fn given_sizes(mut args: Args) -> anyhow::Result<Sizes> {
    ensure!(may_be_given(args.len()), USAGE);
    if args.len() == 0 {
        return Ok(Sizes::LARGEST);
    }
    Ok(Sizes {
        bindings: next_size(&mut args)?,
        exports: next_size(&mut args)?,
        reexports: next_size(&mut args)?,
        unsafes: next_size(&mut args)?,
    })
}

/// Answers a stream of blocks on the standard input by lines of a kind, with tables of these sizes.
fn stream_command(rt: &HostRuntime, kind: LineKind, sizes: Sizes) -> anyhow::Result<()> {
    let mut input = BufReader::new(rt.alloc(), rt.stdin())?;
    let mut output = BufWriter::new(rt.alloc(), rt.stdout())?;
    answer_stream(rt.alloc(), kind, sizes, &mut input, &mut output)?;
    output.flush()?;
    Ok(())
}

/// Prints a line of places for each block.
fn findings_command(rt: &HostRuntime, args: Args) -> anyhow::Result<()> {
    stream_command(rt, LineKind::Findings, given_sizes(args)?)
}

/// Prints a line of names for each block.
fn answers_command(rt: &HostRuntime, args: Args) -> anyhow::Result<()> {
    ensure!(args.len() == 0, USAGE);
    stream_command(rt, LineKind::Answers, Sizes::LARGEST)
}

/// Runs the command that the arguments name.
fn run(rt: &HostRuntime) -> anyhow::Result<()> {
    let mut args = env::args(rt)?;
    let _ = args.next();
    let command = args.next().context(USAGE)?;
    match command.as_str() {
        "tree" => tree_command(rt, args),
        "findings" => findings_command(rt, args),
        "answers" => answers_command(rt, args),
        _ => bail!(USAGE),
    }
}

/// Runs the program.
fn main(rt: HostRuntime) -> anyhow::Result<()> {
    run(&rt)
}
