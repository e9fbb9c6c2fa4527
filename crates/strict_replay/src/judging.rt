//! The judgement of a script with expectations.

ghost use Rattle.std.specs.Prelude.{◌≡◌, ◌<◌, ◌≤◌, IfOk, length};
ghost use Rattle.event_script.specs.EventScript.{names_in};
ghost use Rattle.strict_replay.specs.StrictReplay.{strict_verdict};

use crate::departure::{Departed, Departure};
use crate::expected::{changes_of, content_departs, lacks};
use crate::reading::{content, event_text, is_silent};
use event_script::reading::{event_of, next_line};
use event_script::task_names::TaskNames;
use event_trace::ring::Ring;
use event_trace::told::Told;
use event_trace::walk::Walk;
use machine_model::event::{Event, Standing};
use mark_checker::accept::Accepted;
use sequencer::machine::Machine;
use std::alloc::{AllocError, Global};
use task_descriptor::program::Program;

/// An event that was played, with the ring before it and the report on it.
#[derive(Drop)]
pub struct Played {
    /// The event.
    pub event: Event,
    /// The ring before it.
    pub ring: Ring,
    /// The report on it: the answer and the changes.
    pub told: Told,
}

/// The machine where the judgement of a script ended, and the event there.
#[derive(Drop)]
pub struct Scene<'a> {
    /// The event of the line that departs; `None` where it spells none, and at the script's end.
    pub played: Option<Played>,
    /// The machine after it.
    pub machine: Machine<'a>,
}

/// The verdict on a script.
#[derive(Drop)]
pub struct Verdict<'a> {
    /// The first line that departs from the machine; `None` where each is as the machine does it.
    pub departed: Option<Departed>,
    /// How many changes of its events, up to that line, the script does not list.
    pub lacking: usize,
    /// Where the judgement ended.
    pub scene: Scene<'a>,
}

// The walk after a line, and how many effects of its event the line does not list; or how the line departs, and where.
type Taken<'a> = Result<(Walk<'a>, usize), (Departure, Scene<'a>)>;

/// The names of a program's tasks, and whether a script must be complete.
#[derive(Drop)]
struct Referee<'t> {
    alloc: Global,
    names: &'t TaskNames,
    is_complete: bool,
}

impl Referee<'_> {
    ghost use Rattle.std.specs.Prelude.{◌≡◌, ◌≤◌, false, length, MatchResult, IfOk};
    ghost use Rattle.event_script.specs.EventScript.{event_in, lines};
    ghost use Rattle.sequencer.specs.Machines.{state, units_of};
    ghost use Rattle.strict_replay.specs.StrictScript.{content, event_text, is_silent};
    ghost use Rattle.std.specs.Option.{option_map};
    ghost use Rattle.strict_replay.specs.StrictReplay.{Departs, Passes, departed, end_departs, first_departed};

    /// The verdict on a script, whose walk is at its start.
    fn judge<'a>(&self, mut walk: Walk<'a>, script: &[u8]) -> Result<Verdict<'a>, AllocError>
        requires { length self.now.names.now ≤ 1024 }
        ensures { IfOk result (λ verdict. verdict.departed ≡ first_departed self.now.is_complete self.now.names.now walk.entry.accepted.program (units_of walk.entry) 1 (length walk.entry.history) (state walk.entry) (lines script.now)) }
    {
        let mut rest = script;
        let mut number = 0;
        let mut lacking: usize = 0;
        while !rest.is_empty() {
            number += 1;
            let (line, others) = next_line(rest);
            match self.take_line(walk, line)? {
                Ok((next, count)) => {
                    walk = next;
                    lacking = lacking.saturating_add(count);
                }
                Err((why, scene)) => {
                    return Ok(Verdict {
                        departed: Some(Departed { line: number, why }),
                        lacking,
                        scene,
                    });
                }
            }
            rest = others;
        }
        Ok(self.at_end(walk.into_machine(), number + 1, lacking))
    }

    /// The verdict at the end of a script each of whose lines passes; `line` is the first that it does not have.
    fn at_end<'a>(&self, machine: Machine<'a>, line: usize, lacking: usize) -> Verdict<'a>
        ensures { result.departed ≡ option_map (departed line) (end_departs self.now.is_complete (state machine.entry).outcome) }
    {
        let why = Departure::NotEnded;
        let departed = match machine.outcome() {
            Standing::Running if self.is_complete => Some(Departed { line, why }),
            _ => None,
        };
        Verdict {
            departed,
            lacking,
            scene: Scene {
                played: None,
                machine,
            },
        }
    }

    /// The walk after a line, and how many effects of its event it does not list; or how it departs.
    #[tactic(auto, using(crate::proofs::Passing::silent_passes, crate::proofs::Passing::unspelled_departs))]
    fn take_line<'a>(&self, walk: Walk<'a>, line: &[u8]) -> Result<Taken<'a>, AllocError>
        requires { length self.now.names.now ≤ 1024 }
        ensures { IfOk result (λ taken. MatchResult taken
            (λ passes. Passes self.now.is_complete self.now.names.now walk.entry (content line.now) passes.0)
            (λ departs. Departs self.now.is_complete self.now.names.now walk.entry (content line.now) departs.0)) }
    {
        let content = content(line);
        if is_silent(content) {
            return Ok(Ok((walk, 0)));
        }
        match event_of(self.names, event_text(content)) {
            Ok(event) => self.take_event(walk, event, content),
            Err(fault) => {
                let scene = Scene {
                    played: None,
                    machine: walk.into_machine(),
                };
                Ok(Err((Departure::NoEvent(fault), scene)))
            }
        }
    }

    /// The walk after the event of a line, and how many of its effects the line does not list; or how it departs.
    fn take_event<'a>(
        &self,
        walk: Walk<'a>,
        event: Event,
        content: &[u8],
    ) -> Result<Taken<'a>, AllocError>
        requires loud { is_silent content.now ≡ false }
        requires spelt { event_in self.now.names.now (event_text content.now) ≡ Ok event }
        ensures { IfOk result (λ taken. MatchResult taken
            (λ passes. Passes self.now.is_complete self.now.names.now walk.entry content.now passes.0)
            (λ departs. Departs self.now.is_complete self.now.names.now walk.entry content.now departs.0)) }
    {
        let ring = walk.ring();
        let (next, told) = walk.step(self.alloc, &event)?;
        match content_departs(self.is_complete, content, &told) {
            None => {
                let unlisted = changes_of(&told)
                    .iter()
                    .filter(|change| lacks(content, change));
                Ok(Ok((next, unlisted.count())))
            }
            Some(why) => {
                let played = Some(Played { event, ring, told });
                let machine = next.into_machine();
                Ok(Err((why, Scene { played, machine })))
            }
        }
    }
}

/// Judges a script with expectations on a machine of `units` units, 1 to 16, at the start of an accepted program: each of
/// its events is allowed and did what is expected, or which line is the first that departs. A complete script must also
/// list all that its events did, and end its run.
///
/// # Errors
///
/// `AllocError` where memory was refused.
pub fn judge<'a>(
    alloc: Global,
    accepted: &'a Accepted,
    units: u32,
    script: &[u8],
    is_complete: bool,
) -> Result<Verdict<'a>, AllocError>
    requires some { 0 < units }
    requires few { units ≤ 16 }
    ensures { IfOk result (λ verdict. verdict.departed ≡ strict_verdict is_complete accepted.now.program units script.now) }
{
    let names = names_of(alloc, accepted.program())?;
    let referee = Referee {
        alloc,
        names: &names,
        is_complete,
    };
    let walk = Walk::new(alloc, accepted, units)?;
    referee.judge(walk, script)
}

/// The names of a program's tasks.
fn names_of(alloc: Global, program: &Program) -> Result<TaskNames, AllocError>
    ensures names { IfOk result (λ names. names ≡ names_in program.now.tasks) }
    ensures few { IfOk result (λ names. length names ≤ 1024) }
{
    TaskNames::of(alloc, program.tasks())
}
