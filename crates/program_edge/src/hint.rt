//! The hint that standard error gets in addition to a result, where it is a terminal.
ghost use Rattle.std.specs.Prelude.{◌≡◌, IfOk};
ghost use Rattle.program_edge.specs.Hints.{IsHint, explains};

use crate::refusal::{last_line, refuses};
use jobs::job::Job;
use report_texts::unlisted::unlisted_exit;
use shown_names::name::shown_name;
use shown_names::shell::shell_word;
use std::alloc::{AllocError, Global};

/// The hint for the result of a job with this status, on a program of this name and text: one line for standard error, or
/// nothing for most results and where standard error is no terminal.
///
/// It says that a text is refused, with the command that says more, or how a run ended that did not halt, and for an
/// unlisted one from where to where its task continued.
///
/// # Errors
///
/// `AllocError` where memory was refused.
pub fn hint_for(
    alloc: Global,
    is_terminal: bool,
    job: &Job,
    name: &str,
    program: &[u8],
    status: u8,
    text: &[u8],
) -> Result<Vec<u8>, AllocError>
    ensures { IfOk result (λ hint. IsHint is_terminal job.now status hint.items) }
{
    if is_terminal && !explains(job) && status == 1 {
        line_hint(alloc, name, program, last_line(text))
    } else {
        Ok(Vec::new(alloc))
    }
}

// Whether the job is `explain`, which says all itself.
pub(crate) fn explains(job: &Job) -> bool
    ensures { result ≡ explains job.now }
{
    matches!(job, Job::Explain { .. })
}

// One line for a result that ends with this line, or none.
fn line_hint(
    alloc: Global,
    name: &str,
    program: &[u8],
    line: &[u8],
) -> Result<Vec<u8>, AllocError> {
    if !refuses(line) && !line.starts_with(b"trapped ") && !line.starts_with(b"unlisted ") {
        return Ok(Vec::new(alloc));
    }
    let shown = shown_name(alloc, name)?;
    let mut hint = format!(in alloc; "multiscalar: {shown}: ")?.into_bytes();
    hint.extend_from_slice(&line[..line.len().saturating_sub(1)])?;
    if line.starts_with(b"program refused: ") || line.starts_with(b"refused ") {
        let word = shell_word(alloc, name)?;
        let more = format!(in alloc; "; multiscalar explain {word} says more")?;
        hint.extend_from_slice(more.as_str().as_bytes())?;
    }
    if line.starts_with(b"unlisted ") {
        if let Some(exit) = unlisted_exit(alloc, program)? {
            hint.extend_from_slice(b": ")?;
            hint.extend_from_slice(exit.as_str().as_bytes())?;
        }
    }
    hint.push(b'\n')?;
    Ok(hint)
}
