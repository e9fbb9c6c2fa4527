//! Telling events one after the other, in some form.

ghost use Rattle.std.specs.Prelude.{◌≡◌, ◌+◌, ◌<◌, ◌^◌, OnOk};

use crate::ending::End;
use crate::objects;
use crate::ring::Ring;
use crate::source::EventSource;
use crate::text::{write_end, write_refused, write_taken};
use crate::told::Told;
use annotated_asm::position::Position;
use json_text::JsonText;
use machine_model::event::Event;
use shown_names::name::shown_name;
use std::alloc::{AllocError, Global};
use task_descriptor::program::Program;

/// How a run was made, as the first line of JSON of its trace says it.
#[derive(Clone, Copy, Debug)]
pub struct RunTold<'n> {
    /// The predictor, as the command line takes it.
    pub predictor: &'n str,
    /// The most events of the run.
    pub budget: u32,
}

/// The form of a trace.
#[derive(Clone, Copy, Debug)]
pub enum TraceForm<'n> {
    /// Lines for a reader: each event in the words of a script, after its number and with its answer, and under one that
    /// was allowed what it changed; and how the machine is after them. Instructions are named by the lines of the program
    /// text.
    Words,
    /// Lines of JSON: an object that says what the lines are, one for each event, with its number, its step if the run is
    /// in steps, its answer and what it changed, and one that says how the machine is after them. Instructions have their
    /// code index and the line of the program text.
    Json {
        /// The name of the program, which is written as names are shown; it may be empty.
        name: &'n str,
        /// The source of the events.
        source: EventSource,
        /// How the run was made, if it was not by a script.
        run: Option<RunTold<'n>>,
        /// Whether the last line says that the budget was spent, and not how the run is.
        is_out_of_budget: bool,
    },
}

/// The part of a trace that is not written yet, and how many events were told so far.
#[derive(Drop)]
pub(crate) struct Pending {
    pub text: String,
    pub told: usize,
}

impl TraceForm<'_> {
    /// Who chose the events, as far as the form tells it.
    pub(crate) fn source(&self) -> EventSource {
        match self {
            TraceForm::Words => EventSource::Script,
            TraceForm::Json { source, .. } => *source,
        }
    }
}

/// What events are told by: the program with the places of its instructions in its text, the steps of the events, if they
/// are told, and the form.
#[derive(Drop)]
pub(crate) struct Teller<'p, 't, 'n> {
    pub alloc: Global,
    pub program: &'p Program,
    pub places: &'t [Position],
    pub steps: &'t [usize],
    pub form: TraceForm<'n>,
}

impl Teller<'_, '_, '_> {
    /// Adds what comes before the events of a run on `units` units.
    pub(crate) fn tell_start(&self, pending: &mut Pending, units: u32) -> Result<(), AllocError>
        ensures { OnOk result (pending.new.told ≡ pending.old.told) }
    {
        if let TraceForm::Json {
            name,
            source,
            run,
            ..
        } = self.form
        {
            let shown = shown_name(self.alloc, name)?;
            let mut out = JsonText::new(self.alloc);
            self.write_start(&mut out, shown.as_str(), source, run, units)?;
            add_line(&mut pending.text, out)?;
        }
        Ok(())
    }

    /// Adds the next event, with what a machine answered to it and what it changed; `ring` is the ring before it.
    pub(crate) fn tell(
        &self,
        pending: &mut Pending,
        ring: &Ring,
        event: Event,
        told: &Told,
    ) -> Result<(), AllocError>
        requires { pending.old.told + 1 < 2 ^ 64 }
        ensures { OnOk result (pending.new.told ≡ pending.old.told + 1) }
    {
        let step = self.steps.get(pending.told).copied();
        pending.told += 1;
        let number = pending.told;
        let (program, places) = (self.program, self.places);
        match self.form {
            TraceForm::Words => {
                let text = &mut pending.text;
                match told {
                    Told::Taken(changes) => {
                        write_taken(text, program, places, number, ring, event, changes)
                    }
                    Told::Refused(refusal) => write_refused(text, program, number, event, *refusal),
                }
            }
            TraceForm::Json { .. } => {
                let mut out = JsonText::new(self.alloc);
                self.write_event(&mut out, number, step, ring, event, told)?;
                add_line(&mut pending.text, out)
            }
        }
    }

    /// Adds how the run stands after the events.
    pub(crate) fn tell_end(&self, pending: &mut Pending, end: &End) -> Result<(), AllocError> {
        match self.form {
            TraceForm::Words => write_end(&mut pending.text, end),
            TraceForm::Json {
                is_out_of_budget,
                ..
            } => {
                let mut out = JsonText::new(self.alloc);
                objects::write_end(&mut out, end, is_out_of_budget)?;
                add_line(&mut pending.text, out)
            }
        }
    }
}

/// Adds a text of JSON as a line.
fn add_line(text: &mut String, out: JsonText) -> Result<(), AllocError> {
    let line = out.into_string();
    writeln!(text, "{line}")
}
