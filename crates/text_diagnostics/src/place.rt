//! Which bytes of an item are meant by what is wrong with it.

ghost use Rattle.std.specs.Prelude.{◌≡◌};
ghost use Rattle.text_diagnostics.specs.Refusals.{span_in};

use crate::advice::Made;
use crate::given::{Given, Item};
use crate::mistakes::{Kind, Limit, Mistake, UsedAs};
use diagnostics::diagnostic::Span;
use operand_forms::meant::span_at;
use operand_forms::rows::{Reading, line_at, read};
use program_statements::statement::Statement;
use program_tokens::span::TokenSpan as Place;
use program_tokens::token::{Mark, Token};

/// A part of a line as a diagnostic has it.
pub(crate) fn span_in(line: u32, place: Place) -> Span
    ensures { result ≡ span_in line place }
{
    Span {
        line,
        column: place.column,
        width: place.len,
    }
}

/// What stands from a column to the end of a token.
pub(crate) fn up_to_end(column: usize, token: Place) -> Place {
    let end = token.column.saturating_add(token.len);
    let len = end.saturating_sub(column);
    Place { column, len }
}

/// The places of a text, with what was read of the line that was looked at last, which may have many mistakes.
#[derive(Drop)]
pub(crate) struct Places<'a> {
    pub(crate) given: Given<'a>,
    /// The number of that line.
    line: u32,
    reading: Reading,
}

impl<'a> Places<'a> {
    /// The places of a text of which no line was looked at.
    pub(crate) fn new(given: Given<'a>) -> Made<Places<'a>> {
        Ok(Places {
            given,
            line: 0,
            reading: read(given.alloc, &[])?,
        })
    }

    /// Looks at a line.
    fn look_at(&mut self, line: u32) -> Made<()> {
        if self.line != line {
            self.reading = read(self.given.alloc, line_at(self.given.rows, line))?;
            self.line = line;
        }
        Ok(())
    }

    /// What stands from the first byte of one token of that line to the last byte of another.
    fn between(&self, first: usize, last: usize) -> Span {
        let places = self.reading.places.as_slice();
        let place = up_to_end(span_at(places, first).column, span_at(places, last));
        span_in(self.line, place)
    }

    /// The last token of that line which is no mark.
    fn last_operand(&self) -> usize {
        let tokens = self.reading.tokens.as_slice();
        let last = tokens
            .iter()
            .rposition(|token| !matches!(token, Token::Mark(_)));
        last.unwrap_or(0)
    }

    /// Which bytes are meant: a name, a list, or all of the item.
    pub(crate) fn meant(&mut self, mistake: &Mistake, item: &Item) -> Made<Span> {
        self.look_at(item.span.line)?;
        let name = item.token.saturating_add(1);
        let last = self.last_operand();
        let count = match self.given.known.statement(item) {
            Some(Statement::Task(task)) => task.targets.as_slice().len(),
            _ => 0,
        };
        // The last token of each target from the end is two tokens further back: between them stands a comma.
        let back = |count: usize| last.saturating_sub(count.saturating_mul(2));
        let targets = back(count.max(1));
        let (first, last) = match mistake.kind {
            Kind::TaskTwice | Kind::NoInstruction | Kind::SameEntry => (name, name),
            Kind::NoLabel(used_as) | Kind::DataLabel(used_as) => {
                let number = match used_as {
                    UsedAs::Start | UsedAs::Task => name,
                    UsedAs::Target(number) => back(count.saturating_sub(number).saturating_sub(1)),
                    UsedAs::Operand | UsedAs::Address => last,
                };
                (number, number)
            }
            Kind::Passes(Limit::Targets) => (targets, last),
            Kind::CreatesZero => (name.saturating_add(1), targets.saturating_sub(1)),
            _ => return Ok(item.span),
        };
        Ok(self.between(first, last))
    }

    /// In place of what a remedy is written: of a mark, of nothing behind the line, or of what is meant.
    pub(crate) fn written(&self, kind: Kind, meant: Span) -> Span {
        let is_stop = match kind {
            Kind::UnfitForward => false,
            Kind::StopOnHalt | Kind::OneSidedStop => true,
            Kind::NoTaskThere => {
                let width = line_at(self.given.rows, self.line).len();
                let column = width.saturating_add(1);
                return span_in(self.line, Place { column, len: 0 });
            }
            _ => return meant,
        };
        let tokens = self.reading.tokens.as_slice();
        let mark = tokens.iter().position(|token| match token {
            Token::Mark(mark) => matches!(mark, Mark::Forward) != is_stop,
            _ => false,
        });
        let number = mark.unwrap_or(0);
        self.between(number, number)
    }
}
