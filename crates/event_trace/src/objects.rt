//! Events, what they changed and how a run is, as objects of JSON. Each error says that memory was refused.

use crate::change::Change;
use crate::ending::{End, MemoryWord, RegisterWord};
use crate::ring::Ring;
use crate::source::EventSource;
use crate::telling::{RunTold, Teller};
use crate::told::Told;
use crate::unit_change::UnitChange;
use event_script::writing::task_name;
use json_text::{JsonText, Written};
use machine_model::event::{Event, Refused, Standing};
use mips_instructions::number::Reg;
use mips_plain::outcome::Trap;

impl Teller<'_, '_, '_> {
    /// Adds what the lines of a trace are, what the program is called, unless its name is empty, the schedule, the predictor and
    /// the budget of a run, how many units the machine has and how many instructions the program.
    pub(crate) fn write_start(
        &self,
        out: &mut JsonText,
        name: &str,
        source: EventSource,
        run: Option<RunTold<'_>>,
        units: u32,
    ) -> Written {
        out.begin()?;
        out.text("format", "multiscalar-trace")?;
        out.number("version", 2)?;
        if !name.is_empty() {
            out.text("program_name", name)?;
        }
        match source {
            EventSource::Script => {}
            EventSource::Threads => out.text("schedule", "threads")?,
            EventSource::Steps => out.text("schedule", "steps")?,
        }
        if let Some(run) = run {
            out.text("predictor", run.predictor)?;
            out.number("budget", run.budget as usize)?;
        }
        out.number("units", units as usize)?;
        out.number("instructions", self.program.code().len())?;
        out.end()
    }

    /// Adds the event of this number, its step, from 0, if the run went in steps, the answer to it, and what it changed; `ring`
    /// is the ring before it.
    pub(crate) fn write_event(
        &self,
        out: &mut JsonText,
        number: usize,
        step: Option<usize>,
        ring: &Ring,
        event: Event,
        told: &Told,
    ) -> Written {
        out.begin()?;
        out.number("event", number)?;
        if let Some(step) = step {
            out.number("step", step.saturating_add(1))?;
        }
        self.write_kind(out, ring, event)?;
        match told {
            Told::Taken(changes) => {
                out.text("answer", "ok")?;
                self.write_changes(out, ring, changes)?;
            }
            Told::Refused(refusal) => {
                out.text("answer", "refused")?;
                write_refusal(out, *refusal)?;
                self.write_changes(out, ring, &[])?;
            }
        }
        out.end()
    }

    /// Adds an event.
    fn write_kind(&self, out: &mut JsonText, ring: &Ring, event: Event) -> Written {
        match event {
            Event::Assign(task) => {
                out.text("kind", "assign")?;
                out.text("task", task_name(self.program, task))
            }
            Event::Exec(k) => write_at(out, "exec", ring, k),
            Event::Transfer(k, register) => {
                write_at(out, "transfer", ring, k)?;
                write_register(out, register)
            }
            Event::Drain(k, register) => {
                write_at(out, "drain", ring, k)?;
                write_register(out, register)
            }
            Event::Squash(k) => write_at(out, "squash", ring, k),
            Event::Retire => out.text("kind", "retire"),
            Event::Fault => out.text("kind", "fault"),
            Event::Drop(k) => write_at(out, "drop", ring, k),
        }
    }

    /// Adds the list of the changes.
    fn write_changes(&self, out: &mut JsonText, ring: &Ring, changes: &[Change]) -> Written {
        out.list("changes")?;
        for change in changes {
            out.begin()?;
            self.write_change(out, ring, *change)?;
            out.end()?;
        }
        out.end_list()
    }

    /// Adds a change.
    fn write_change(&self, out: &mut JsonText, ring: &Ring, change: Change) -> Written {
        match change {
            Change::AtUnit {
                position,
                task,
                change,
            } => {
                out.text("change", unit_change_name(&change))?;
                write_unit(out, ring, position)?;
                out.text("task", task_name(self.program, task))?;
                self.write_unit_change(out, &change)
            }
            Change::Took { register, word } => write_value(out, "took", register, word),
            Change::Loaded { address, word } => write_access(out, "loaded", address, word),
            Change::Stored {
                address,
                word,
                size,
            } => {
                write_access(out, "stored", address, word)?;
                out.number("bytes", size as usize)
            }
            Change::Wrote { register, word } => write_value(out, "wrote", register, word),
            Change::Sent { register, word } => write_value(out, "sent", register, word),
            Change::PutOut { word } => {
                out.text("change", "put_out")?;
                out.number("word", word as usize)
            }
            Change::MovedTo { index } => {
                out.text("change", "moved_to")?;
                self.write_place(out, index)
            }
            Change::StoppedAt { address } => {
                out.text("change", "stopped_at")?;
                self.write_exit(out, address)
            }
            Change::Ended { standing } => {
                out.text("change", "ended")?;
                write_standing(out, "standing", standing)
            }
        }
    }

    /// Adds what a change of a unit says beside its name.
    fn write_unit_change(&self, out: &mut JsonText, change: &UnitChange) -> Written {
        match *change {
            UnitChange::Began { index } | UnitChange::Executed { index } => {
                self.write_place(out, index)
            }
            UnitChange::Arrived { register, word } | UnitChange::Drained { register, word } => {
                write_register_word(out, register, word)
            }
            UnitChange::Retired { exit } => self.write_exit(out, exit),
            UnitChange::Squashed | UnitChange::Dropped | UnitChange::BecameHead => Ok(()),
        }
    }

    /// Adds the instruction of an index, and its line, if it has one.
    fn write_place(&self, out: &mut JsonText, index: u32) -> Written {
        out.number("index", index as usize)?;
        match self.places.get(index as usize) {
            Some(place) => out.number("line", place.line as usize),
            None => Ok(()),
        }
    }

    /// Adds where an exit leads: an address, and the instruction there, if there is one.
    fn write_exit(&self, out: &mut JsonText, address: u32) -> Written {
        out.number("address", address as usize)?;
        match self.program.index(address) {
            Some(index) => self.write_place(out, index),
            None => Ok(()),
        }
    }
}

/// Adds a kind of events, and the unit.
fn write_at(out: &mut JsonText, kind: &str, ring: &Ring, position: u32) -> Written {
    out.text("kind", kind)?;
    write_unit(out, ring, position)
}

/// Adds a unit, by its position and its number round the ring.
fn write_unit(out: &mut JsonText, ring: &Ring, position: u32) -> Written {
    out.number("position", position as usize)?;
    out.number("unit", ring.number_at(position))
}

/// Adds why an event is refused: the number and the name, and the register that is waited for, if there is one.
fn write_refusal(out: &mut JsonText, refusal: Refused) -> Written {
    let (number, name) = refusal.number_and_name();
    write_named(out, number, name)?;
    match refusal {
        Refused::Waiting(register) | Refused::Unfinished(register) => write_register(out, register),
        _ => Ok(()),
    }
}

/// Adds a number and a name.
fn write_named(out: &mut JsonText, number: u8, name: &str) -> Written {
    out.number("code", number as usize)?;
    out.text("name", name)
}

/// What a change of a unit is called.
fn unit_change_name(change: &UnitChange) -> &'static str {
    match change {
        UnitChange::Began { .. } => "began",
        UnitChange::Executed { .. } => "executed",
        UnitChange::Arrived { .. } => "arrived",
        UnitChange::Drained { .. } => "drained",
        UnitChange::Squashed => "squashed",
        UnitChange::Dropped => "dropped",
        UnitChange::Retired { .. } => "retired",
        UnitChange::BecameHead => "became_head",
    }
}

/// Adds a change with a register and a word.
fn write_value(out: &mut JsonText, name: &str, register: Reg, word: u32) -> Written {
    out.text("change", name)?;
    write_register_word(out, register, word)
}

/// Adds a change with an address and a word.
fn write_access(out: &mut JsonText, name: &str, address: u32, word: u32) -> Written {
    out.text("change", name)?;
    write_address_word(out, address, word)
}

/// Adds a register.
fn write_register(out: &mut JsonText, register: Reg) -> Written {
    out.number("register", register.get() as usize)
}

/// Adds a register with a word.
fn write_register_word(out: &mut JsonText, register: Reg, word: u32) -> Written {
    write_register(out, register)?;
    out.number("word", word as usize)
}

/// Adds an address with a word.
fn write_address_word(out: &mut JsonText, address: u32, word: u32) -> Written {
    out.number("address", address as usize)?;
    out.number("word", word as usize)
}

/// Adds how a run stands, under this name.
fn write_standing(out: &mut JsonText, name: &str, standing: Standing) -> Written {
    match standing {
        Standing::Running => out.text(name, "running"),
        Standing::Halted => out.text(name, "halted"),
        Standing::Trapped(trap) => {
            out.text(name, "trapped")?;
            match trap {
                Trap::Unaligned => write_named(out, 1, "Unaligned"),
                Trap::OutOfRange => write_named(out, 2, "OutOfRange"),
                Trap::BadPc => write_named(out, 3, "BadPc"),
                Trap::ReadOnly => write_named(out, 4, "ReadOnly"),
            }
        }
        Standing::Unlisted(address) => {
            out.text(name, "unlisted")?;
            out.number("address", address as usize)
        }
    }
}

/// Adds how a run stands, or that its budget was spent, and its registers and words of memory.
pub(crate) fn write_end(out: &mut JsonText, end: &End, is_out_of_budget: bool) -> Written {
    out.begin()?;
    if is_out_of_budget {
        out.text("end", "out of budget")?;
    } else {
        write_standing(out, "end", end.standing)?;
    }
    write_registers(out, &end.registers)?;
    write_memory(out, &end.memory)?;
    out.end()
}

/// Adds the list of some registers.
fn write_registers(out: &mut JsonText, registers: &[RegisterWord]) -> Written {
    out.list("registers")?;
    for held in registers {
        out.begin()?;
        write_register_word(out, held.register, held.word)?;
        out.end()?;
    }
    out.end_list()
}

/// Adds the list of some words of memory.
fn write_memory(out: &mut JsonText, memory: &[MemoryWord]) -> Written {
    out.list("memory")?;
    for changed in memory {
        out.begin()?;
        write_address_word(out, changed.address, changed.word)?;
        out.end()?;
    }
    out.end_list()
}
