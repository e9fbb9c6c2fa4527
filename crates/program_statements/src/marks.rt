//! The marks at the end of a statement.

ghost use Rattle.std.specs.Prelude.{◌≡◌, ◌≤◌, length};
ghost use Rattle.program_statements.specs.Statements.{with_stop, with_mark, marks_after, is_mark, mark_count};

use crate::fault::StatementFault;
use crate::statement::Marks;
use program_tokens::token::{Mark, Token};
use task_descriptor::descriptor::Stop;

/// The marks with a stop, where there is none yet.
fn with_stop(marks: Marks, stop: Stop) -> Result<Marks, StatementFault>
    ensures { result ≡ with_stop marks stop }
{
    match marks.stop {
        Stop::None => Ok(Marks {
            forward: marks.forward,
            stop,
        }),
        Stop::Always | Stop::Taken | Stop::NotTaken => Err(StatementFault::Mark),
    }
}

/// The marks with one more.
fn with_mark(marks: Marks, token: Token) -> Result<Marks, StatementFault>
    ensures { result ≡ with_mark marks token }
{
    match token {
        Token::Mark(Mark::Forward) => {
            if marks.forward {
                Err(StatementFault::Mark)
            } else {
                Ok(Marks {
                    forward: true,
                    stop: marks.stop,
                })
            }
        }
        Token::Mark(Mark::Always) => with_stop(marks, Stop::Always),
        Token::Mark(Mark::Taken) => with_stop(marks, Stop::Taken),
        Token::Mark(Mark::NotTaken) => with_stop(marks, Stop::NotTaken),
        _ => Err(StatementFault::Mark),
    }
}

/// The marks with those added that these tokens spell.
///
/// # Errors
///
/// `Mark` where a token is no known mark, and at a second `!f` or a second stop.
pub fn marks_after(none: Marks, tokens: &[Token]) -> Result<Marks, StatementFault>
    ensures { result ≡ marks_after none tokens.now }
{
    let mut marks = none;
    for token in tokens {
        marks = with_mark(marks, *token)?;
    }
    Ok(marks)
}

fn is_mark(token: &Token) -> bool
    ensures { result ≡ is_mark token.now }
{
    matches!(token, Token::Mark(_))
}

/// The number of mark tokens at the end of a line's tokens.
pub fn mark_count(tokens: &[Token]) -> usize
    ensures value { result ≡ mark_count tokens.now }
    ensures within { result ≤ length tokens.now }
{
    tokens
        .iter()
        .rev()
        .take_while(|token| is_mark(token))
        .count()
}
