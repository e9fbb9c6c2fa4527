//! Reporting how many runs are done.
ghost use Rattle.std.specs.Prelude.{◌≡◌, IfOk, OnOk};
ghost use Rattle.std.specs.Io.KnownBytes.{Appends};
ghost use Rattle.std.specs.String.{string_bytes};
ghost use Rattle.verdict_report.specs.CurveProgress.{IsSaidIf, run_line};
ghost use Rattle.result_files.specs.Writing.{Begins};

use result_files::writing::write_text;
use std::alloc::{AllocError, Global};
use std::io;
use std::io::Write;

/// Writes how many runs of how many are done, if that is asked for; returns whether it was written.
pub(crate) fn tell<E: Write>(
    alloc: Global,
    asked: bool,
    name: &str,
    done: u32,
    of: u32,
    errors: &mut E,
) -> bool
    ensures { IsSaidIf asked result (run_line name.now done of) (E.contents errors.old) (E.contents errors.new) }
{
    if !asked {
        return false;
    }
    match run_line(alloc, name, done, of) {
        Ok(line) => say(line.as_str(), errors).is_ok(),
        Err(AllocError) => false,
    }
}

// The line that states how many runs of how many are done.
fn run_line(alloc: Global, name: &str, done: u32, of: u32) -> Result<String, AllocError>
    ensures { IfOk result (λ line. string_bytes line ≡ run_line name.now done of) }
{
    let mut line = String::new(alloc);
    writeln!(line, "multiscalar: {name}: {done} of {of} runs")?;
    Ok(line)
}

// Writes a text and flushes it, so that it arrives.
fn say<E: Write>(text: &str, errors: &mut E) -> io::Result<()>
    ensures whole { OnOk result (Appends (E.contents errors.old) (E.contents errors.new) text.now) }
    ensures part { Begins (E.contents errors.old) (E.contents errors.new) text.now }
{
    write_text(text, errors)?;
    errors.flush()
}
