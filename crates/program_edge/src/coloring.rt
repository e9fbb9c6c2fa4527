//! Whether lines for a person have colours, where the options leave that to the program.
ghost use Rattle.program_edge.specs.Colouring.{IsSettled};

use crate::fault::Fault;
use command_line::request::Request;
use jobs::job::{Colors, Job};
use std::env;
use std::env::{Env, VarError};

/// Whether the environment permits colours on a terminal: `NO_COLOR` is not set, or is empty, and `TERM` is not `dumb`.
pub fn is_colorful<R: Env + AllocGlobal>(rt: &R) -> bool {
    let is_allowed = match env::var(rt, "NO_COLOR") {
        Ok(value) => value.as_str().is_empty(),
        Err(error) => matches!(error, VarError::NotPresent),
    };
    let is_dumb = match env::var(rt, "TERM") {
        Ok(value) => value.as_str() == "dumb",
        Err(_) => false,
    };
    is_allowed && !is_dumb
}

/// What was asked for, with nothing left open: `--color auto` stands for colours where standard output shows them and
/// no file takes the result.
pub(crate) fn settle_asked(
    asked: Result<Request, Fault>,
    shows_colors: bool,
) -> Result<Request, Fault>
    ensures { IsSettled asked result }
{
    let mut request = asked?;
    let is_colored = shows_colors && request.output.is_none();
    if let Job::Explain { colors, .. } = &mut request.job {
        if *colors == Colors::Auto {
            *colors = if is_colored {
                Colors::Always
            } else {
                Colors::Never
            };
        }
    }
    Ok(request)
}
