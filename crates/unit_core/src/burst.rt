//! Work outside the lock: a unit is lent, a burst of its instructions is made on the copy, and the unit takes
//! the burst over.

ghost use Rattle.std.specs.Prelude.{◌≡◌, ℕ, ◌<◌, ◌≤◌, [], length, None, IfSome, IfOk, IfErr, OnOk, OnErr, IsTrue, ◌↔◌, is_some, false};
ghost use Rattle.mips_instructions.specs.Words.{has};
ghost use Rattle.unit_core.specs.Units.{active_of, unlogged};
ghost use Rattle.unit_core.specs.UnitStep.{IsRefusedFor};
ghost use Rattle.unit_core.specs.Bursts.{EndsAtSend, EndsFor, HasMore, IsBurstOn, IsBurstToSend, IsMade, Makes, SendsLast, carried_on, lent};

use crate::state::UnitState;
use crate::unit::Unit;
use crate::wait::Wait;
use mark_checker::accept::Accepted;
use mips_instructions::number::RegSet;
use mips_plain::outcome::OutOfMemory;
use std::alloc::Global;
use std::marker::Model;
use task_descriptor::program::Program;

/// The most instructions of a burst.
pub const MOST_STEPS: u32 = 65_536;

/// A copy of a unit, with only the length of its log, lent with its program and certificate to make a burst on.
#[derive(Drop)]
pub struct Lease<'a> {
    accepted: &'a Accepted,
    state: UnitState,
    alloc: Global,
}

impl<'a> Model for Lease<'a> {
    ghost use Rattle.unit_core.specs.Bursts.{LeaseView};
    ghost use Rattle.unit_core.specs.Units.{unlogged};

    ghost Value = { LeaseView };

    ghost view = { λ l. record { accepted = l.accepted.now; unit = unlogged l.state; reads = l.state.reads } };
}

/// A unit before and after a burst of instructions, each register-only or a load of read-only data. What they
/// read is the log of the unit after them; of the log before them a burst has only the length.
#[derive(Drop)]
pub struct Burst<'a> {
    accepted: &'a Accepted,
    before: UnitState,
    steps: u32,
    after: Unit,
    ended: Option<Wait>,
}

impl<'a> Model for Burst<'a> {
    ghost use Rattle.unit_core.specs.Bursts.{BurstView, IsMade};
    ghost use Rattle.unit_core.specs.Units.{unlogged};

    ghost Value = { BurstView };

    ghost view = { λ b. record { accepted = b.accepted.now; before = unlogged b.before; reads = b.before.reads; steps = b.steps; after = b.after; ended = b.ended } };

    ghost invariant = { λ b. IsMade (record { accepted = b.accepted.now; before = unlogged b.before; reads = b.before.reads; steps = b.steps; after = b.after; ended = b.ended }) };
}

/// The number of reads for which a burst takes memory before its first step, so that a usual log grows once.
const RESERVED_READS: u32 = 64;

/// How many instructions were executed, and why the next one was not, if it was tried.
#[derive(Clone, Copy)]
struct Stretch {
    steps: u32,
    ended: Option<Wait>,
}

/// Executes instructions ahead until one is refused, at most `most`.
fn run_ahead(program: &Program, unit: &mut Unit, most: u32) -> Stretch
    requires { unit.old.log ≡ [] }
    ensures few { result.steps ≤ most }
    ensures made { Makes program.now unit.old result.steps unit.new }
    ensures ends { EndsFor program.now (active_of unit.new) most result.steps result.ended }
{
    for steps in 0..most {
        if let Err(why) = unit.exec_ahead(program) {
            return Stretch {
                steps,
                ended: Some(why),
            };
        }
    }
    Stretch {
        steps: most,
        ended: None,
    }
}

/// Whether a unit has sent exactly the registers of a set.
#[inline]
fn has_sent(unit: &Unit, set: RegSet) -> bool
    ensures { IsTrue result ↔ ((r : ℕ) → is_some ((active_of unit.now).sent r) ≡ has set r) }
{
    unit.sent_set() == set
}

/// Executes instructions ahead until one is refused or sends a register for the first time, at most `most`.
fn run_to_send(program: &Program, unit: &mut Unit, most: u32) -> Stretch
    requires { unit.old.log ≡ [] }
    ensures few { result.steps ≤ most }
    ensures made { Makes program.now unit.old result.steps unit.new }
    ensures sends_last { SendsLast program.now unit.old result.steps }
    ensures ends { EndsAtSend program.now (active_of unit.old) (active_of unit.new) most result.steps result.ended }
{
    let sent = unit.sent_set();
    for steps in 0..most {
        if let Err(why) = unit.exec_ahead(program) {
            return Stretch {
                steps,
                ended: Some(why),
            };
        }
        if !has_sent(unit, sent) {
            return Stretch {
                steps: steps + 1,
                ended: None,
            };
        }
    }
    Stretch {
        steps: most,
        ended: None,
    }
}

impl<'a> Burst<'a> {
    /// Executes at most `most` instructions, up to 65,536, on a lent unit, each a register-only one or a load
    /// of read-only data. It ends early only where the unit has stopped, waits for a register or for becoming
    /// the head, or where growth of the reads was refused; `ended` says which.
    pub fn run(lease: Lease<'a>, most: u32) -> Burst<'a>
        requires { most ≤ 65536 }
        ensures { IsBurstOn lease.entry most result }
    {
        let mut burst = Burst::new(lease);
        burst.go(most);
        burst
    }

    /// A burst without instructions on a lent unit.
    pub fn new(lease: Lease<'a>) -> Burst<'a>
        ensures accepted { result.accepted ≡ lease.entry.accepted }
        ensures before { result.before ≡ lease.entry.unit }
        ensures reads { result.reads ≡ lease.entry.reads }
        ensures none { result.steps ≡ 0 }
        ensures begun { result.ended ≡ None }
    {
        Burst {
            accepted: lease.accepted,
            before: lease.state,
            steps: 0,
            after: Unit::with_state(lease.alloc, &lease.state),
            ended: None,
        }
    }

    /// Becomes a burst without instructions on a unit as it is, with only the length of its log. The burst
    /// reuses the memory of an earlier one and of its reads, so it takes none, and nothing is moved.
    #[inline]
    pub fn begin(&mut self, accepted: &'a Accepted, unit: &Unit)
        ensures accepted { self.new.accepted ≡ accepted.now }
        ensures before { self.new.before ≡ record unit.now { log = [] } }
        ensures reads { self.new.reads ≡ length unit.now.log }
        ensures none { self.new.steps ≡ 0 }
        ensures begun { self.new.ended ≡ None }
    {
        self.accepted = accepted;
        unit.write_state(&mut self.before);
        self.steps = 0;
        self.after.begin_as(unit);
        self.ended = None;
    }

    /// Like `run`, executes at most `most` instructions, up to 65,536, but on the unit of a burst without
    /// instructions instead of a lent one.
    pub fn go(&mut self, most: u32)
        requires few { most ≤ 65536 }
        requires none { self.old.steps ≡ 0 }
        ensures { IsBurstOn (lent self.old) most self.new }
    {
        // If this growth is refused, each step asks for its own room.
        let _ = self.after.reserve_reads(most.min(RESERVED_READS) as usize);
        let made = run_ahead(self.accepted.program(), &mut self.after, most);
        self.steps = made.steps;
        self.ended = made.ended;
    }

    /// Like `go`, but the burst ends also right after an instruction that sends a register for the first time,
    /// so that the successor gets it soon; then `ended` is `None`.
    pub fn go_to_send(&mut self, most: u32)
        requires few { most ≤ 65536 }
        requires none { self.old.steps ≡ 0 }
        ensures { IsBurstToSend (lent self.old) most self.new }
    {
        // If this growth is refused, each step asks for its own room.
        let _ = self.after.reserve_reads(most.min(RESERVED_READS) as usize);
        let made = run_to_send(self.accepted.program(), &mut self.after, most);
        self.steps = made.steps;
        self.ended = made.ended;
    }

    /// The program and the certificate of its lease.
    #[inline]
    pub fn accepted(&self) -> &'a Accepted
        ensures { result.now ≡ self.now.accepted }
    {
        self.accepted
    }

    /// The unit as it was lent, with only the length of its log.
    #[inline]
    pub fn before(&self) -> &UnitState
        ensures unit { unlogged result.now ≡ self.now.before }
        ensures reads { result.now.reads ≡ self.now.reads }
    {
        &self.before
    }

    /// The number of instructions executed, at most 65,536.
    #[inline]
    pub fn steps(&self) -> u32
        ensures value { result ≡ self.now.steps }
        ensures made { IsMade self.now }
    {
        self.steps
    }

    /// Why the burst has fewer instructions than were asked for: what refuses the unit after them the next one.
    /// `None` where it has as many as were asked for, where it ended at a first send, and where none were asked
    /// for yet.
    #[inline]
    pub fn ended(&self) -> Option<Wait>
        ensures value { result ≡ self.now.ended }
        ensures reason { IfSome result (IsRefusedFor self.now.accepted.program false (active_of self.now.after)) }
    {
        self.ended
    }

    /// The unit after these instructions; its log has their reads alone.
    #[inline]
    pub fn after(&self) -> &Unit
        ensures { result.now ≡ self.now.after }
    {
        &self.after
    }
}

impl Unit {
    /// Lends the unit as it is, with only the length of its log. Takes no memory, and costs the same however
    /// long the log is.
    pub fn lease<'a>(&self, accepted: &'a Accepted) -> Lease<'a>
        ensures accepted { result.accepted ≡ accepted.now }
        ensures unit { result.unit ≡ record self.now { log = [] } }
        ensures reads { result.reads ≡ length self.now.log }
    {
        Lease {
            accepted,
            state: self.state(),
            alloc: self.allocator(),
        }
    }

    /// Takes over a burst and returns its number of instructions: their reads are appended to the log, and what
    /// arrived since the unit was lent stays arrived. Returns 0, and changes nothing, exactly where the burst
    /// has no instruction, or the unit is not as it was lent, apart from registers that arrived since. Of the
    /// log the length is compared: in one machine a serial number and a length tell a log.
    ///
    /// # Errors
    ///
    /// `OutOfMemory` where memory was refused for the reads; the burst is handed back and nothing is changed
    /// then.
    pub fn take<'a>(&mut self, mut burst: Burst<'a>) -> Result<u32, (Burst<'a>, OutOfMemory)>
        ensures taken { IfOk result (λ steps. 0 < steps → (steps ≡ burst.entry.steps)
            × HasMore (active_of burst.entry.before) burst.entry.reads (active_of self.old)
            × (active_of self.new ≡ carried_on (active_of burst.entry.after) (active_of self.old))) }
        ensures stale { IfOk result (λ steps. steps ≡ 0 → self.new ≡ self.old) }
        ensures fresh { HasMore (active_of burst.entry.before) burst.entry.reads (active_of self.old) → IfOk result (λ steps. steps ≡ burst.entry.steps) }
        ensures made { IsMade burst.entry }
        ensures refused { IfErr result (λ back. (back.0 ≡ burst.entry) × (self.new ≡ self.old) × (0 < burst.entry.steps)
            × HasMore (active_of burst.entry.before) burst.entry.reads (active_of self.old)) }
    {
        let steps = burst.steps();
        if steps == 0 || !self.has_more(&burst.before) {
            return Ok(0);
        }
        match self.carry_on(&mut burst) {
            Ok(()) => Ok(steps),
            Err(refused) => Err((burst, refused)),
        }
    }

    /// Continues as the unit of a burst did: its reads are appended to the log, and what arrived stays arrived.
    /// The burst is left without instructions, to be made on the unit as it is now. The unit is as it was lent,
    /// apart from registers that arrived since. If there are many reads, they are moved, not copied.
    ///
    /// # Errors
    ///
    /// `OutOfMemory` where memory was refused for the reads; nothing is changed then.
    pub fn carry_on(&mut self, burst: &mut Burst<'_>) -> Result<(), OutOfMemory>
        ensures ok { OnOk result (active_of self.new ≡ carried_on (active_of burst.old.after) (active_of self.old)) }
        ensures emptied { OnOk result (burst.new.steps ≡ 0) }
        ensures begun { OnOk result (burst.new.ended ≡ None) }
        ensures reads { OnOk result (burst.new.reads ≡ length (active_of self.new).log) }
        ensures err { OnErr result ((self.new ≡ self.old) × (burst.new ≡ burst.old)) }
    {
        self.take_reads_of(&mut burst.after)?;
        self.go_on_as(&burst.after);
        burst.before = burst.after.state();
        burst.before.reads = self.log.len();
        burst.steps = 0;
        burst.ended = None;
        Ok(())
    }

    /// Like `carry_on`, but a burst of few reads, which are copied, may stay as it is, so that the unit before
    /// it is not rewritten.
    ///
    /// # Errors
    ///
    /// `OutOfMemory` where memory was refused for the reads; nothing is changed then.
    pub fn go_on_from(&mut self, burst: &mut Burst<'_>) -> Result<(), OutOfMemory>
        ensures ok { OnOk result (active_of self.new ≡ carried_on (active_of burst.old.after) (active_of self.old)) }
        ensures err { OnErr result ((self.new ≡ self.old) × (burst.new ≡ burst.old)) }
    {
        if self.copy_reads_of(&burst.after)? {
            self.go_on_as(&burst.after);
            return Ok(());
        }
        self.carry_on(burst)
    }
}
