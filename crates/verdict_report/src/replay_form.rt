//! What `replay` writes, by where it comes from.
ghost use Rattle.std.specs.Prelude.{◌≡◌};
ghost use Rattle.verdict_report.specs.Playing.{emit_of};

use jobs::job::{ReplayEmit, TableFormat};

/// What is written for the machine that the events leave.
#[derive(Clone, Copy, Debug, PartialEq, Eq)]
pub(crate) enum MachineForm {
    /// What it answered to each event, and how it stands.
    Answers,
    /// How the tasks ended that it assigned, as a table.
    Summary(TableFormat),
    /// The events that it allowed, as a picture.
    Picture,
    /// The events that it allowed, as a timeline.
    Timeline,
    /// How it stands, and its units.
    State,
}

/// What is written of each event, with what it changed, while the events are played.
#[derive(Clone, Copy, Debug, PartialEq, Eq)]
pub(crate) enum ToldForm {
    /// Lines for a reader.
    Trace,
    /// Lines of JSON.
    Lines,
}

/// What is written for the events of a script.
#[derive(Clone, Copy, Debug, PartialEq, Eq)]
pub(crate) enum ReplayForm {
    /// Each event with what it changed.
    Told(ToldForm),
    /// The machine that the events leave.
    OfMachine(MachineForm),
}

/// Where what is to be written comes from.
pub(crate) fn form_of(emit: ReplayEmit) -> ReplayForm
    ensures { emit_of result ≡ emit }
{
    match emit {
        ReplayEmit::Trace => ReplayForm::Told(ToldForm::Trace),
        ReplayEmit::Json => ReplayForm::Told(ToldForm::Lines),
        ReplayEmit::Answers => ReplayForm::OfMachine(MachineForm::Answers),
        ReplayEmit::Summary(format) => ReplayForm::OfMachine(MachineForm::Summary(format)),
        ReplayEmit::Picture => ReplayForm::OfMachine(MachineForm::Picture),
        ReplayEmit::Timeline => ReplayForm::OfMachine(MachineForm::Timeline),
        ReplayEmit::State => ReplayForm::OfMachine(MachineForm::State),
    }
}
