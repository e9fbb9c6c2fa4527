//! The machine: units on a ring over one accepted program, changed by events alone.

use crate::accepted_laws::{accepted_headline, accepted_never_stuck};
use crate::history::History;
use crate::laws::accepted_replays;
use limits::ranges::{MOST_EVENTS, MOST_UNITS, Units};
use machine_model::event::{Commit, Event, EventRun, Refused, Standing};
use mark_checker::accept::Accepted;
use mips_instructions::number::{Place, Reg};
use mips_plain::memory::Memory;
use mips_plain::outcome::OutOfMemory;
use processor_steps::processor::Processor;
use std::alloc::{AllocError, Global};
use std::marker::Model;
use thiserror::Error;
use unit_core::read_log::ReadLog;

/// Why no machine is made; where both hold, the first.
#[derive(Clone, Copy, Debug, PartialEq, Eq, Error)]
pub enum MachineFault {
    /// 1: not 1 to 16 units.
    #[error("1 Units")]
    Units,
    /// 2: out of memory.
    #[error("2 OutOfMemory")]
    OutOfMemory,
}

/// A multiscalar machine over an accepted program; it is always the replay of its history.
#[derive(Drop)]
pub struct Machine<'a> {
    alloc: Global,
    pub(crate) accepted: &'a Accepted,
    pub(crate) processor: Processor,
    pub(crate) history: History,
}

impl<'a> Model for Machine<'a> {
    ghost use Rattle.sequencer.specs.Machines.{MachineView, IsMachine};

    ghost Value = { MachineView };

    ghost view = { λ m. record { accepted = m.accepted.now; processor = m.processor; history = m.history } };

    ghost invariant = { λ m. IsMachine (record { accepted = m.accepted.now; processor = m.processor; history = m.history }) };
}

impl<'a> Machine<'a> {
    ghost use Rattle.std.specs.Prelude.{◌≡◌, ℕ, ◌+◌, ◌%◌, ◌<◌, ◌≤◌, ◌⊎◌, ◌↔◌, List, [], ◌∷◌, ◌++◌, length, slice_get, nat_lt, if◌then◌else◌, Ok, Err, Some, None, IfOk, IfErr, OnOk, OnErr, IfSome, IfNone, IsSome, IsTrue, true, false};
    ghost use Rattle.std.specs.List.{All};
    ghost use Rattle.std.specs.Option.{option_and_then};
    ghost use Rattle.machine_model.specs.Machine.{State, opening, value as value_of};
    ghost use Rattle.machine_model.specs.Step.{Next};
    ghost use Rattle.machine_model.specs.Answer.{after, refusal, most_events};
    ghost use Rattle.machine_model.specs.HeadEvent.{head_event as head_event_of, event_of_queue, growth};
    ghost use Rattle.machine_model.specs.Runs.{events_of};
    ghost use Rattle.machine_model.specs.declared.event.Event.{Event};
    ghost use Rattle.machine_model.specs.declared.event.Event.TheVariants.{Assign, Exec, Transfer, Retire};
    ghost use Rattle.machine_model.specs.declared.event.Refused.TheVariants as refused;
    ghost use Rattle.machine_model.specs.declared.event.Standing.TheVariants as standing;
    ghost use Rattle.machine_model.specs.Replay.{Replays, ReplaysFrom};
    ghost use Rattle.machine_model.specs.Claims.{Claims, EndsLike, count_c, count_h};
    ghost use Rattle.mips_plain.specs.MemoryMap.{byte_of};
    ghost use Rattle.processor_steps.specs.Processors.{ProcessorView, Keeps, Steps, executed_by, state_of};
    ghost use Rattle.sequencer.specs.Machines.{IsMachine, state, units_of, answer_to, IsAnswered, Applies, SameRing, Tries};
    ghost use Rattle.sequencer.specs.Choices.{choices_of, choice_of, MayFollow};
    ghost use Rattle.sequencer.specs.Finish.{RunsByHead, IsHeadRefused};
    ghost use Rattle.sequencer.specs.Rings.{unit_for, AreDistinct, EventFits};
    ghost use Rattle.sequencer.specs.Histories.{AreCounted, executed_in};

    /// A machine at the start of the program, as `with_units` makes it, with 1 to 16 units.
    ///
    /// # Errors
    ///
    /// `Units` exactly where the number of units is not 1 to 16, else `OutOfMemory` where memory was refused.
    pub fn new(
        alloc: Global,
        accepted: &'a Accepted,
        units: u32,
    ) -> Result<Machine<'a>, MachineFault>
        ensures units { (result ≡ Err MachineFault.Units) ↔ ((units ≡ 0) ⊎ (16 < units)) }
        ensures accepted { IfOk result (λ machine. machine.accepted ≡ accepted.now) }
        ensures capacity { IfOk result (λ machine. units_of machine ≡ units) }
        ensures history { IfOk result (λ machine. machine.history ≡ []) }
        ensures opening { IfOk result (λ machine. state machine ≡ opening accepted.now.program) }
    {
        if units == 0 || units > MOST_UNITS {
            return Err(MachineFault::Units);
        }
        match Machine::with_units(alloc, accepted, Units::of(units)) {
            Ok(machine) => Ok(machine),
            Err(AllocError) => Err(MachineFault::OutOfMemory),
        }
    }

    /// A machine at the start of the program, with so many units, all of them free. It reserves the memory of
    /// its history, once.
    ///
    /// # Errors
    ///
    /// `AllocError` where memory was refused.
    pub fn with_units(
        alloc: Global,
        accepted: &'a Accepted,
        units: Units,
    ) -> Result<Machine<'a>, AllocError>
        ensures accepted { IfOk result (λ machine. machine.accepted ≡ accepted.now) }
        ensures capacity { IfOk result (λ machine. units_of machine ≡ units) }
        ensures history { IfOk result (λ machine. machine.history ≡ []) }
        ensures opening { IfOk result (λ machine. state machine ≡ opening accepted.now.program) }
    {
        let processor = match Processor::new(alloc, accepted.program(), units.get()) {
            Ok(processor) => processor,
            Err(OutOfMemory) => return Err(AllocError),
        };
        let history = match History::new(alloc) {
            Ok(history) => history,
            Err(AllocError) => return Err(AllocError),
        };
        Ok(Machine {
            alloc,
            accepted,
            processor,
            history,
        })
    }

    /// Applies an event exactly where the machine step allows it and the history has fewer than 1,000,000
    /// events. Exec and Retire may take memory; no other event does.
    ///
    /// # Errors
    ///
    /// The first refusal of 1 to 16 whose condition holds, else for Exec and Retire alone `OutOfMemory` where
    /// memory was refused; nothing is changed then.
    #[inline(always)]
    pub fn apply(&mut self, event: Event) -> Result<(), Refused>
        ensures answer { IsAnswered self.old event result }
        ensures ok { OnOk result (Applies self.old event self.new) }
        ensures err { OnErr result (self.new ≡ self.old) }
        ensures kept { SameRing self.old self.new }
    {
        if !self.is_running() {
            return Err(Refused::Ended);
        }
        let event = &event;
        match *event {
            Event::Exec(0) => self.apply_at_head(),
            Event::Exec(position) => self.apply_ahead(position),
            Event::Transfer(position, register) => self.apply_transfer(position, register),
            Event::Retire => self.apply_retire(),
            Event::Assign(task) => self.apply_assign(task),
            _ => self.apply_other(*event),
        }
    }

    /// Like `apply`, for an Exec of the head while the run continues. Most events are Exec events, so they have calls
    /// of their own, in which what they touch stays in registers.
    #[inline(never)]
    fn apply_at_head(&mut self) -> Result<(), Refused>
        requires { (state self.old).outcome ≡ standing.Running }
        ensures { Tries self.old (Exec 0) result self.new }
    {
        self.law_replay();
        let count = self.length();
        self.processor.exec_head(self.accepted.program(), count)?;
        self.history.push(Event::Exec(0));
        Ok(())
    }

    /// Like `apply`, for an Exec of a unit after the head.
    #[inline(never)]
    fn apply_ahead(&mut self, position: u32) -> Result<(), Refused>
        requires behind { 0 < position }
        requires runs { (state self.old).outcome ≡ standing.Running }
        ensures { Tries self.old (Exec position) result self.new }
    {
        self.law_replay();
        let count = self.length();
        self.processor
            .exec_ahead(self.accepted.program(), count, position)?;
        self.history.push(Event::Exec(position));
        Ok(())
    }

    /// Like `apply`, for a Transfer. Transfer, Retire and Assign come once or more for each task, so each has a call
    /// that looks for nothing else.
    #[inline(never)]
    fn apply_transfer(&mut self, position: u32, register: Reg) -> Result<(), Refused>
        requires { (state self.old).outcome ≡ standing.Running }
        ensures { Tries self.old (Transfer position register) result self.new }
    {
        self.apply_any(Event::Transfer(position, register))
    }

    /// Like `apply`, for a Retire.
    #[inline(never)]
    fn apply_retire(&mut self) -> Result<(), Refused>
        requires { (state self.old).outcome ≡ standing.Running }
        ensures { Tries self.old Retire result self.new }
    {
        self.apply_any(Event::Retire)
    }

    /// Like `apply`, for an Assign.
    #[inline(never)]
    fn apply_assign(&mut self, task: u32) -> Result<(), Refused>
        requires { (state self.old).outcome ≡ standing.Running }
        ensures { Tries self.old (Assign task) result self.new }
    {
        self.apply_any(Event::Assign(task))
    }

    /// Like `apply`, for any other event.
    #[inline(never)]
    fn apply_other(&mut self, event: Event) -> Result<(), Refused>
        requires { (state self.old).outcome ≡ standing.Running }
        ensures { Tries self.old event result self.new }
    {
        self.apply_any(event)
    }

    /// Like `apply`, for any event. It is compiled into its callers, which mostly know the kind of the event.
    #[inline(always)]
    fn apply_any(&mut self, event: Event) -> Result<(), Refused>
        requires { (state self.old).outcome ≡ standing.Running }
        ensures { Tries self.old event result self.new }
    {
        self.law_replay();
        let alloc = self.alloc;
        let count = self.length();
        self.processor
            .step(alloc, self.accepted.program(), count, &event)?;
        self.history.push(event);
        Ok(())
    }

    /// Whether the machine step allows an event and the history has room: `apply` would answer Ok or
    /// `OutOfMemory`. Takes no memory.
    pub fn enabled(&self, event: Event) -> bool
        ensures { IsTrue result ↔ (answer_to self.now event ≡ Ok tt) }
    {
        self.law_replay();
        self.is_running() && self.length() < MOST_EVENTS && self.allows(event)
    }

    /// The event that the head is ready for, which the machine step allows: on an empty queue the Assign
    /// of the task at the next address; for a running head its next instruction; for a stopped head Fault
    /// where its exit is not listed, else Squash(0) where the next unit begins elsewhere, else the Drain
    /// of its least register that is not sent, else Retire. `None` exactly where the run has ended.
    /// Takes no memory.
    pub fn head_event(&self) -> Option<Event>
        ensures event { result ≡ head_event_of self.now.accepted.program (state self.now) }
        ensures running { IsSome result ↔ ((state self.now).outcome ≡ standing.Running) }
        ensures allowed { IfSome result (λ e. (s : State) × Next self.now.accepted.program (units_of self.now) (state self.now) e s) }
    {
        self.law_head_ready();
        if self.is_running() {
            self.event_at_head()
        } else {
            None
        }
    }

    /// Applies head events until h, the instructions of the retired tasks and the head, has grown by `k` or the
    /// run has ended. h grows by more than `k` only where the last event is a Retire whose next unit had
    /// executed ahead.
    ///
    /// # Errors
    ///
    /// It stops at a head event that is refused, before h has grown by `k`: by `Full` with a history of
    /// 1,000,000 events, else by `OutOfMemory`, where memory was refused for an Exec or a Retire. The events
    /// before it stay applied.
    pub fn finish(&mut self, k: u64) -> Result<(), Refused>
        ensures kept { SameRing self.old self.new }
        ensures runs { (es : List Event) × (self.new.history ≡ self.old.history ++ es)
            × RunsByHead self.old.accepted.program (units_of self.old) (count_h (state self.old) + k) (state self.old) es (state self.new) }
        ensures done { OnOk result (((state self.new).outcome ≡ standing.Running → ⊥) ⊎ (count_h (state self.old) + k ≤ count_h (state self.new))) }
        ensures beyond { count_h (state self.old) + k < count_h (state self.new) → (before : List Event) × (self.new.history ≡ before ++ Retire ∷ []) }
        ensures refused { IfErr result (λ why. (count_h (state self.new) < count_h (state self.old) + k) × IsHeadRefused self.new why) }
    {
        let (_, start) = self.counts();
        while self.counts().1 - start < k {
            if !self.apply_head_event()? {
                return Ok(());
            }
        }
        Ok(())
    }

    /// Applies the head event, and answers whether there was one.
    ///
    /// # Errors
    ///
    /// What refuses the head event: `Full` with a history of 1,000,000 events, else `OutOfMemory`, which
    /// only Exec and Retire may get; nothing is changed then.
    fn apply_head_event(&mut self) -> Result<bool, Refused>
        ensures kept { SameRing self.old self.new }
        ensures applied { IfOk result (λ did. did ≡ true → (e : Event) × (head_event_of self.old.accepted.program (state self.old) ≡ Some e) × Applies self.old e self.new × (count_h (state self.new) ≡ count_h (state self.old) + growth (state self.old) e)) }
        ensures ended { IfOk result (λ did. did ≡ false → (self.new ≡ self.old) × ((state self.new).outcome ≡ standing.Running → ⊥)) }
        ensures room { length self.new.history ≤ most_events }
        ensures refused { IfErr result (λ why. IsHeadRefused self.old why) }
        ensures err { OnErr result (self.new ≡ self.old) }
    {
        self.law_replay();
        let Some(event) = self.head_event() else {
            return Ok(false);
        };
        self.apply(event)?;
        self.law_replay();
        Ok(true)
    }

    /// The events that were applied, in order, as runs of equal events. The machine is always their replay.
    pub fn history(&self) -> &[EventRun]
        ensures value { events_of result.now ≡ self.now.history }
        ensures counted { AreCounted result.now }
        ensures replay { Replays self.now.accepted.program (units_of self.now) self.now.history (state self.now) }
        ensures room { length self.now.history ≤ most_events }
        ensures in_range { All (EventFits (length self.now.accepted.program.tasks) (units_of self.now)) self.now.history }
    {
        self.law_replay();
        self.history.runs()
    }

    /// The number of events that were applied, at most 1,000,000.
    pub fn length(&self) -> usize
        ensures { result ≡ length self.now.history }
    {
        self.history.len()
    }

    /// The number of instructions that the units executed, including on paths that were given up: the Exec
    /// events of the history.
    pub fn executed(&self) -> usize
        ensures { result ≡ executed_in self.now.history }
    {
        self.history.executed()
    }

    /// Whether the machine was made over an equal program and certificate, with so many units. Both are
    /// compared by value.
    pub fn is_over(&self, accepted: &Accepted, units: u32) -> bool
        ensures { IsTrue result ↔ ((self.now.accepted ≡ accepted.now) × (units_of self.now ≡ units)) }
    {
        self.processor.capacity() == units && is_same(self.accepted, accepted)
    }

    /// What follows from the machine being the replay of its history; the call does nothing.
    pub(crate) fn law_replay(&self)
        ensures assigned { (state self.now).assigns ≤ length self.now.history }
        ensures executed { executed_by (state self.now) ≤ length self.now.history }
        ensures room { length self.now.history ≤ most_events }
        ensures distinct { AreDistinct (state self.now).queue }
        ensures in_range { All (EventFits (length self.now.accepted.program.tasks) (units_of self.now)) self.now.history }
        ensures allowed { (e : Event) (s : State) → Next self.now.accepted.program (units_of self.now) (state self.now) e s → refusal self.now.accepted.program (units_of self.now) (state self.now) e ≡ None }
        ensures grows { (e : Event) (s : State) → Next self.now.accepted.program (units_of self.now) (state self.now) e s → count_h s ≡ count_h (state self.now) + growth (state self.now) e }
        ensures fits { length (state self.now).queue ≤ units_of self.now }
        ensures goes_on { (es : List Event) (p : ProcessorView) → ReplaysFrom self.now.accepted.program (units_of self.now) (state self.now) es (state_of p) → Keeps self.now.processor p → length self.now.history + length es ≤ most_events
            → IsMachine (record self.now { processor = p; history = self.now.history ++ es }) }
        ensures applied { (e : Event) (done : Unit {0}) (p : ProcessorView) → Steps self.now.accepted.program self.now.processor (length self.now.history) e (Ok done) p
            → IsMachine (record self.now { processor = p; history = self.now.history ++ e ∷ [] }) }
    {
        accepted_replays(self.accepted);
        // What a machine keeps is known where one of its fields is read.
        let _ = &self.processor;
    }

    /// While the run continues there is a head event, and the machine step allows it; the call does
    /// nothing.
    fn law_head_ready(&self)
        ensures { (state self.now).outcome ≡ standing.Running
            → (e : Event) × (head_event_of self.now.accepted.program (state self.now) ≡ Some e) × Next self.now.accepted.program (units_of self.now) (state self.now) e (after self.now.accepted.program (state self.now) e) }
    {
        accepted_never_stuck(self.accepted);
        let _ = &self.processor;
    }

    /// Whether the run continues.
    pub(crate) fn is_running(&self) -> bool
        ensures { IsTrue result ↔ ((state self.now).outcome ≡ standing.Running) }
    {
        self.processor.world().is_running()
    }

    /// Whether nothing but the run's end and the history's room can refuse an event.
    fn allows(&self, event: Event) -> bool
        ensures { IsTrue result ↔ (refusal self.now.accepted.program (units_of self.now) (state self.now) event ≡ None) }
    {
        self.processor.is_allowed(self.accepted.program(), event)
    }

    /// The event that the head is ready for, while the run continues.
    fn event_at_head(&self) -> Option<Event>
        ensures { result ≡ event_of_queue self.now.accepted.program (state self.now).next (state self.now).queue }
    {
        self.processor.event_at_head(self.accepted.program())
    }

    /// The headline for this machine: what retired is the plain machine's run, and how it ended; the call does
    /// nothing.
    fn law_headline(&self)
        ensures claims { Claims self.now.accepted.program (state self.now) }
        ensures replay { Replays self.now.accepted.program (units_of self.now) self.now.history (state self.now) }
    {
        accepted_headline(self.accepted);
        let _ = &self.processor;
    }

    /// The retired tasks, in order. Each exit is the address of a target of its task.
    pub fn commits(&self) -> &[Commit]
        ensures value { result.now ≡ (state self.now).commits }
        ensures headline { Claims self.now.accepted.program (state self.now) }
    {
        self.law_headline();
        self.processor.commits()
    }

    /// What the instructions of the retired tasks read, in order. They are the reads of the
    /// plain machine's first c instructions.
    pub fn reads(&self) -> &ReadLog
        ensures value { result.now.reads ≡ (state self.now).reads }
        ensures headline { Claims self.now.accepted.program (state self.now) }
    {
        self.law_headline();
        self.processor.reads()
    }

    /// The words that `out` has appended, in order. They are the plain machine's after h instructions.
    pub fn output(&self) -> &[u32]
        ensures value { result.now ≡ (state self.now).output }
        ensures headline { Claims self.now.accepted.program (state self.now) }
    {
        self.law_headline();
        self.processor.world().output()
    }

    /// Data memory, which is the plain machine's after h instructions, and read-only data, which no
    /// event changes.
    pub fn memory(&self) -> &Memory
        ensures bytes { byte_of result.now.bytes ≡ (state self.now).memory }
        ensures fixed { byte_of result.now.fixed ≡ byte_of self.now.accepted.program.fixed }
        ensures headline { Claims self.now.accepted.program (state self.now) }
    {
        self.law_headline();
        self.processor.world().memory()
    }

    /// The numbers c and h: c instructions were executed by the retired tasks, h by these and the head
    /// together.
    pub fn counts(&self) -> (u64, u64)
        ensures retired { result.0 ≡ count_c (state self.now) }
        ensures head { result.1 ≡ count_h (state self.now) }
        ensures headline { Claims self.now.accepted.program (state self.now) }
    {
        self.law_headline();
        self.law_replay();
        let retired = self.processor.reads().len() as u64;
        match self.processor.unit(0) {
            Some(head) => (retired, retired + head.reads().len() as u64),
            None => (retired, retired),
        }
    }

    /// Whether the run continues or how it ended: Halted or Trapped only as the plain machine is after h
    /// instructions, Unlisted at an address only where it is about to fetch there and the head's task does not
    /// list it.
    pub fn outcome(&self) -> Standing
        ensures value { result ≡ (state self.now).outcome }
        ensures ends { EndsLike self.now.accepted.program (state self.now) result }
    {
        self.law_headline();
        self.processor.world().outcome()
    }

    /// The value of a register in the unit at a position, counted from the head; `None` where no unit is there
    /// or the register is reserved. At position 0 it is the plain machine's after h instructions.
    pub fn value(&self, position: u32, register: Reg) -> Option<u32>
        ensures value { result ≡ option_and_then (λ u. value_of u register) (slice_get (state self.now).queue position) }
        ensures headline { Claims self.now.accepted.program (state self.now) }
    {
        self.law_headline();
        match self.processor.unit(position) {
            Some(unit) => unit.value(register),
            None => None,
        }
    }

    /// The position, counted from the head, of the unit with this number on the ring: an Exec at that position
    /// belongs to it. `None` where the unit is free or there is no such unit. The head's number is the number
    /// of retired tasks, modulo the number of units.
    pub fn position(&self, unit: u32) -> Option<u32>
        ensures position { IfSome result (λ k. (k < length (state self.now).queue) × (unit_for self.now (Exec k) ≡ unit)) }
        ensures none { IfNone result ((k : ℕ) → k < length (state self.now).queue → unit_for self.now (Exec k) ≡ unit → ⊥) }
    {
        let units = self.processor.capacity();
        if unit >= units {
            return None;
        }
        let head = self.number_at(0);
        let position = if unit >= head {
            unit - head
        } else {
            unit + units - head
        };
        if position < self.processor.active() {
            Some(position)
        } else {
            None
        }
    }

    /// The number on the ring of the unit at a position.
    #[inline]
    pub(crate) fn number_at(&self, position: u32) -> u32
        ensures { result ≡ unit_for self.now (Exec position) }
    {
        let units = self.processor.capacity() as usize;
        ((self.processor.commits().len() + position as usize) % units) as u32
    }

    /// The number on the ring of the unit that the next Assign fills; `None` where all are at work.
    pub fn next_unit(&self) -> Option<u32>
        ensures { (task : ℕ) → result ≡ (if nat_lt (length (state self.now).queue) (units_of self.now) then Some (unit_for self.now (Assign task)) else None) }
    {
        let units = self.processor.capacity();
        let active = self.processor.active();
        if active < units {
            Some(((self.processor.commits().len() + active as usize) % units as usize) as u32)
        } else {
            None
        }
    }

    /// The targets, as code indices, of a tail that has not stopped; none where there is no such tail or the
    /// run has ended.
    pub fn choices(&self) -> &[Place]
        ensures { result.now ≡ choices_of self.now.accepted.program (state self.now) }
    {
        if self.processor.world().is_running() {
            self.processor.targets_of_tail(self.accepted.program())
        } else {
            &[]
        }
    }

    /// The Assign that may follow: after a tail that has not stopped, the one of target `answer` modulo the
    /// number of targets; after a stopped tail, and on an empty queue, the one that the machine step allows by
    /// task and place, whatever the answer. `None` once the run has ended, and otherwise only where no task may
    /// follow, so never where there are choices. A full ring makes no difference.
    pub fn choice(&self, answer: u32) -> Option<Event>
        ensures value { result ≡ choice_of self.now.accepted.program (state self.now) answer }
        ensures follows { IfSome result (λ e. (task : ℕ) × (e ≡ Assign task) × MayFollow self.now.accepted.program (state self.now) task) }
        ensures none { IfNone result ((state self.now).outcome ≡ standing.Running → (task : ℕ) → MayFollow self.now.accepted.program (state self.now) task → ⊥) }
        ensures choices { IfNone result (choices_of self.now.accepted.program (state self.now) ≡ []) }
    {
        // Reading the program gives that its marks are sound, so a task begins at each target.
        let _ = self.accepted.program();
        self.chosen(answer)
    }

    /// The Assign that may follow, by an answer.
    fn chosen(&self, answer: u32) -> Option<Event>
        ensures { result ≡ choice_of self.now.accepted.program (state self.now) answer }
    {
        if !self.processor.world().is_running() {
            return None;
        }
        match self
            .processor
            .task_to_assign(self.accepted.program(), answer)
        {
            Some(task) => Some(Event::Assign(task)),
            None => None,
        }
    }
}

ghost use Rattle.std.specs.Prelude.{◌≡◌, ◌↔◌, IsTrue};

/// Whether program and certificate are the same.
pub(crate) fn is_same(accepted: &Accepted, other: &Accepted) -> bool
    ensures { IsTrue result ↔ (accepted.now ≡ other.now) }
{
    if !accepted.program().is_same(other.program()) {
        return false;
    }
    accepted.cert().is_same(other.cert())
}
