//! The trace of some events, written while the events are played: so it takes no memory that grows with them.

ghost use Rattle.std.specs.Prelude.{◌≡◌, ◌+◌, ◌<◌, ◌≤◌, ◌^◌, length, IfOk, OnOk};
ghost use Rattle.machine_model.specs.Answer.{play};
ghost use Rattle.result_files.specs.Writing.{Grows};
ghost use Rattle.sequencer.specs.Machines.{state, units_of};
ghost use Rattle.event_trace.specs.Following.{GoesOn, state_from};

use crate::ending::end_of;
use crate::places::places;
use crate::telling::{Pending, Teller, TraceForm};
use crate::times::steps_of;
use crate::walk::Walk;
use machine_model::event::{Event, Standing};
use mark_checker::accept::Accepted;
use result_files::writing::write_off;
use sequencer::machine::Machine;
use std::alloc::{AllocError, Global};
use std::io::Write;
use thiserror::Error;

/// How many bytes of text are kept, at least, before they are written.
const LEAST_WRITTEN: usize = 65_536;

/// Why a text was not written whole; a part of it may have been.
#[derive(Clone, Copy, Debug, PartialEq, Eq, Error)]
pub enum StreamFault {
    /// 1: memory was refused.
    #[error("1 OutOfMemory")]
    OutOfMemory,
    /// 2: the writer failed.
    #[error("2 Write")]
    Write,
}

impl From<AllocError> for StreamFault {
    ghost use Rattle.std.specs.Prelude.{◌≡◌};
    ghost use Rattle.event_trace.specs.declared.streaming.StreamFault.TheVariants.{OutOfMemory};

    ghost from_gives = { λ _ e. e ≡ OutOfMemory };

    fn from(_error: AllocError) -> StreamFault {
        StreamFault::OutOfMemory
    }
}

/// Writes the trace of some events on a machine of `units` units, 1 to 16, at the start of an accepted program, while it
/// plays them, and returns how the run is after them. `program_text` is the text of the program.
///
/// # Errors
///
/// `OutOfMemory` where memory was refused, `Write` where the writer failed. A part of the trace may have been written.
pub fn stream_trace<W: Write>(
    alloc: Global,
    writer: &mut W,
    accepted: &Accepted,
    units: u32,
    program_text: &[u8],
    events: &[Event],
    form: TraceForm<'_>,
) -> Result<Standing, StreamFault>
    requires some { 0 < units }
    requires few { units ≤ 16 }
    ensures standing { IfOk result (λ standing. standing ≡ (play accepted.now.program units events.now).state.outcome) }
    ensures grows { Grows (W.contents writer.old) (W.contents writer.new) }
{
    let program = accepted.program();
    let places = places(alloc, program_text)?;
    let steps = steps_of(alloc, form.source(), events)?;
    let teller = Teller {
        alloc,
        program,
        places: &places,
        steps: &steps,
        form,
    };
    let mut pending = Pending {
        text: String::new(alloc),
        told: 0,
    };
    teller.tell_start(&mut pending, units)?;
    let machine = stream_events(writer, accepted, units, events, &teller, &mut pending)?;
    let end = end_of(alloc, &machine, program.bytes())?;
    teller.tell_end(&mut pending, &end)?;
    pass_on(&mut pending.text, 0, writer)?;
    Ok(end.standing)
}

/// The trace of some events, as `stream_trace` writes it, and how the run is after them.
///
/// # Errors
///
/// `AllocError` where memory was refused.
pub fn trace(
    alloc: Global,
    accepted: &Accepted,
    units: u32,
    program_text: &[u8],
    events: &[Event],
    form: TraceForm<'_>,
) -> Result<(Vec<u8>, Standing), AllocError>
    requires some { 0 < units }
    requires few { units ≤ 16 }
    ensures { IfOk result (λ traced. traced.1 ≡ (play accepted.now.program units events.now).state.outcome) }
{
    let mut bytes = Vec::new(alloc);
    match stream_trace(
        alloc,
        &mut bytes,
        accepted,
        units,
        program_text,
        events,
        form,
    ) {
        Ok(standing) => Ok((bytes, standing)),
        // What is written to memory fails only where there is no more of it.
        Err(_) => Err(AllocError),
    }
}

/// Tells events on a machine of `units` units that is at the start of an accepted program, writes what gathers, and leaves
/// the rest in `pending`. Answers the machine as the events leave it.
fn stream_events<'a, W: Write>(
    writer: &mut W,
    accepted: &'a Accepted,
    units: u32,
    events: &[Event],
    teller: &Teller<'_, '_, '_>,
    pending: &mut Pending,
) -> Result<Machine<'a>, StreamFault>
    requires units { (0 < units) × (units ≤ 16) }
    requires none { pending.old.told ≡ 0 }
    ensures machine { IfOk result (λ machine. state machine ≡ (play accepted.now.program units events.now).state) }
    ensures told { OnOk result (pending.new.told ≡ length events.now) }
    ensures grows { Grows (W.contents writer.old) (W.contents writer.new) }
{
    let start = Walk::new(teller.alloc, accepted, units)?;
    let walk = stream_walk(writer, start, events, teller, pending)?;
    Ok(walk.into_machine())
}

/// Tells events on a walk, and answers the walk after them.
fn stream_walk<'a, W: Write>(
    writer: &mut W,
    mut walk: Walk<'a>,
    events: &[Event],
    teller: &Teller<'_, '_, '_>,
    pending: &mut Pending,
) -> Result<Walk<'a>, StreamFault>
    requires none { pending.old.told ≡ 0 }
    ensures left { IfOk result (λ next. state next
        ≡ state_from walk.entry.accepted.program (units_of walk.entry) (length walk.entry.history) (state walk.entry) events.now) }
    ensures told { OnOk result (pending.new.told ≡ length events.now) }
    ensures grows { Grows (W.contents writer.old) (W.contents writer.new) }
{
    for event in events {
        walk = stream_event(writer, walk, *event, teller, pending)?;
    }
    Ok(walk)
}

/// Tells the next event on a walk, and writes what has gathered, where that is long.
fn stream_event<'a, W: Write>(
    writer: &mut W,
    walk: Walk<'a>,
    event: Event,
    teller: &Teller<'_, '_, '_>,
    pending: &mut Pending,
) -> Result<Walk<'a>, StreamFault>
    requires { pending.old.told + 1 < 2 ^ 64 }
    ensures on { IfOk result (λ next. GoesOn walk.entry event next) }
    ensures told { OnOk result (pending.new.told ≡ pending.old.told + 1) }
    ensures grows { Grows (W.contents writer.old) (W.contents writer.new) }
{
    let ring = walk.ring();
    let (next, told) = walk.step(teller.alloc, &event)?;
    teller.tell(pending, &ring, event, &told)?;
    pass_on(&mut pending.text, LEAST_WRITTEN, writer)?;
    Ok(next)
}

/// Writes what a text holds, and empties it, where it has at least `least` bytes.
fn pass_on<W: Write>(text: &mut String, least: usize, writer: &mut W) -> Result<(), StreamFault>
    ensures { Grows (W.contents writer.old) (W.contents writer.new) }
{
    write_off(text, least, writer).map_err(|_| StreamFault::Write)
}
