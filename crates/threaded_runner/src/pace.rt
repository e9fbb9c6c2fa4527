//! How a worker continues with one of its units.

ghost use Rattle.std.specs.Prelude.{◌≡◌, ◌<◌, ◌↔◌, IsTrue};
ghost use Rattle.threaded_runner.specs.Paces.{after_check_in, after_in_place, after_single, after_taken, anew, doubled, fresh_pace, next_task, one_by_one};

use machine_model::event::Refused;
use unit_core::burst::MOST_STEPS;

/// The most instructions of a task's first burst.
const FIRST_STEPS: u32 = 64;

/// How many instructions are executed one by one after a burst that ended early.
const SINGLE_STEPS: u32 = 64;

/// How a worker continues with a unit.
#[derive(Clone, Copy, Debug, PartialEq, Eq)]
pub(crate) struct Pace {
    /// The most instructions of the next burst.
    pub(crate) most: u32,
    /// How many instructions are executed one by one before it.
    pub(crate) single: u32,
    /// How many tasks had retired when the unit was dropped for want of memory.
    pub(crate) dropped_at: Option<usize>,
}

impl Pace {
    /// The pace of a unit that has had no task.
    pub(crate) fn new() -> Pace
        ensures { result ≡ fresh_pace }
    {
        Pace {
            most: FIRST_STEPS,
            single: 0,
            dropped_at: None,
        }
    }

    /// The pace of the unit's next task: its bursts begin anew, after the instructions that were still to be
    /// executed one by one.
    pub(crate) fn of_next_task(self) -> Pace
        ensures { result ≡ next_task self }
    {
        Pace {
            most: FIRST_STEPS,
            single: self.single,
            dropped_at: None,
        }
    }

    /// Whether the next burst is as short as a task's first.
    pub(crate) fn is_first(self) -> bool
        ensures { IsTrue result ↔ (self.most ≡ 64) }
    {
        self.most == FIRST_STEPS
    }

    /// The pace after the given number of instructions were executed one by one, or one was refused.
    pub(crate) fn after_single(self, steps: u32) -> Pace
        ensures { result ≡ after_single steps self }
    {
        Pace {
            single: self.single.saturating_sub(steps.max(1)),
            ..self
        }
    }

    /// The pace after a burst in place of the given number of instructions, at most `most`.
    pub(crate) fn after_in_place(self, most: u32, steps: u32) -> Pace
        ensures { result ≡ after_in_place most steps self }
    {
        if steps == 0 {
            self.one_by_one()
        } else if steps == most {
            self.doubled()
        } else {
            self
        }
    }

    /// The pace after a burst of the given number of instructions, at most `most`, was handed in with this answer.
    pub(crate) fn after_check_in(
        self,
        is_all: bool,
        most: u32,
        steps: u32,
        answer: Result<u32, Refused>,
    ) -> Pace
        ensures { result ≡ after_check_in is_all most steps answer self }
    {
        match answer {
            Ok(0) if steps == 0 => self.one_by_one(),
            Ok(0) => self.anew(),
            Ok(events) => self.after_taken(is_all, most, events),
            Err(_) => self.one_by_one(),
        }
    }

    /// The pace after a burst that was taken over with this many instructions. Lending a unit and handing in a
    /// burst shorter than a task's first costs more than executing as many instructions one by one.
    fn after_taken(self, is_all: bool, most: u32, events: u32) -> Pace
        ensures { result ≡ after_taken is_all most events self }
    {
        if events == most {
            self.doubled()
        } else if events >= FIRST_STEPS {
            self
        } else if is_all {
            self.anew()
        } else {
            self.one_by_one()
        }
    }

    /// The next burst is twice as long.
    fn doubled(self) -> Pace
        ensures { result ≡ doubled self }
    {
        Pace {
            most: self.most.saturating_mul(2).min(MOST_STEPS),
            ..self
        }
    }

    /// The next burst is as short as a task's first.
    fn anew(self) -> Pace
        ensures { result ≡ anew self }
    {
        Pace {
            most: FIRST_STEPS,
            ..self
        }
    }

    /// The next instructions are executed one by one.
    fn one_by_one(self) -> Pace
        ensures { result ≡ one_by_one self }
    {
        Pace {
            single: SINGLE_STEPS,
            ..self
        }
    }
}
