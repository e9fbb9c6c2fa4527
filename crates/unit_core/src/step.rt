//! The parts of one step of a unit: what it needs from an instruction and where it goes.

ghost use Rattle.std.specs.Prelude.{◌≡◌, ℕ, ◌+◌, ◌%◌, ◌^◌, ◌<◌, ◌&&◌, true, false, None, Some, IfOk, IfErr};
ghost use Rattle.std.specs.Option.{option_or};
ghost use Rattle.mips_instructions.specs.Words.{has, address};
ghost use Rattle.mips_plain.specs.MemoryMap.{byte_of};
ghost use Rattle.mips_instructions.specs.Instruction.{dests as dests_of, released, taken, turn};
ghost use Rattle.mips_plain.specs.Effect.{may_run_ahead};
ghost use Rattle.task_graph.specs.Edges.{edge, leaves, sends};
ghost use Rattle.machine_model.specs.Unit.{place_after, with_own, sent_with};
ghost use Rattle.machine_model.specs.Burst.{no_memory};
ghost use Rattle.register_ring.specs.Held.{pairs};
ghost use Rattle.machine_model.specs.Machine.{value, value_in};
ghost use Rattle.register_ring.specs.Ports.{arrived_of, sent_of};
ghost use Rattle.mips_instructions.specs.InstructionTable.{general};
ghost use Rattle.unit_core.specs.ExecParts.{in_general, loads, writes, replaced};
ghost use Rattle.unit_core.specs.Effects.{Does};
ghost use Rattle.unit_core.specs.declared.wait.Wait.TheVariants as wait;

use crate::wait::Wait;
use machine_model::event::Spot;
use mips_instructions::instruction::Op;
use mips_instructions::number::{Gpr, Reg, RegSet};
use mips_instructions::places::address_of;
use mips_plain::memory::fixed_load;
use mips_plain::outcome::Read;
use register_ring::held::RegisterWords;
use register_ring::members::next_member;
use register_ring::port::Port;
use task_descriptor::descriptor::{Marked, Stop};
use task_graph::edges::{ends_task, leads_to};

/// What an instruction does, where that is found together with its operands. The most frequently executed
/// instructions have variants of their own; with more variants, telling them apart would take an indirect
/// jump. Most of them write a word: that variant comes last, here and in `Unit::advance`, since the
/// compiler then tests for it first.
#[derive(Clone, Copy)]
pub(crate) enum Effect {
    /// Its operation has to be looked at again.
    Other,
    /// It writes nothing and continues at an index; a conditional branch is taken or isn't.
    Goes(bool, u32),
    /// It writes a word to one general register and continues at the following instruction.
    Writes(Gpr, u32),
}

/// The words of an instruction's operands, and what it does with them.
#[derive(Clone, Copy)]
pub(crate) struct Operands {
    pub(crate) a: u32,
    pub(crate) b: u32,
    pub(crate) effect: Effect,
}

/// The instruction that a unit executes next, with its operands.
#[derive(Clone, Copy)]
pub(crate) struct Next<'a> {
    /// Its code index.
    pub(crate) index: u32,
    /// Its address in bytes.
    pub(crate) pc: u32,
    /// The instruction with its marks.
    pub(crate) marked: &'a Marked,
    /// The word of operand a, 0 where it has none.
    pub(crate) a: u32,
    /// The word of operand b, 0 where it has none.
    pub(crate) b: u32,
}

impl<'a> Next<'a> {
    /// The instruction at an index, with its operands.
    #[inline(always)]
    pub(crate) fn at(index: u32, marked: &'a Marked, a: u32, b: u32) -> Next<'a>
        requires { index < 4096 }
        ensures { result ≡ record { index = index; pc = address index; marked = marked.entry; a = a; b = b } }
    {
        Next {
            index,
            pc: address_of(index),
            marked,
            a,
            b,
        }
    }

    /// What the instruction reads.
    #[inline(always)]
    pub(crate) fn read(&self) -> Read
        ensures { result ≡ record { pc = self.now.pc; a = self.now.a; b = self.now.b } }
    {
        Read {
            pc: self.pc,
            a: self.a,
            b: self.b,
        }
    }
}

/// Whether an instruction waits only for its operands: all but `release` do.
#[inline]
pub(crate) fn waits_for_operands(op: &Op) -> bool
    ensures { result ≡ true → (r : ℕ) → released op.now r ≡ false }
{
    !matches!(*op, Op::Release(_))
}

/// The registers that an instruction with these destinations sends: its destinations if it has the forward bit,
/// and those that a `release` names.
#[inline]
pub(crate) fn sends_of(marked: &Marked, dests: RegSet) -> RegSet
    requires { (r : ℕ) → has dests r ≡ dests_of marked.now.op r }
    ensures { (r : ℕ) → has result r ≡ sends marked.now r }
{
    if let Op::Release(set) = marked.op {
        return set;
    }
    if marked.forward {
        dests
    } else {
        RegSet::empty()
    }
}

/// The word that an instruction loads, if it loads one; `NotHead` where it needs more than registers
/// and read-only data, whose first bytes are `fixed`.
#[inline(always)]
pub(crate) fn load_ahead(
    next: &Next<'_>,
    effect: &Effect,
    fixed: &[u8],
) -> Result<Option<u32>, Wait>
    requires { Does next.now.marked.now.op next.now.index next.now.a next.now.b effect.now }
    ensures loaded { IfOk result (λ word. (may_run_ahead next.now.marked.now.op next.now.a ≡ true) × (word ≡ loads next.now.marked.now.op next.now.a (byte_of fixed.now) no_memory)) }
    ensures refused { IfErr result (λ why. (why ≡ wait.NotHead) × (may_run_ahead next.now.marked.now.op next.now.a ≡ false)) }
{
    match *effect {
        Effect::Writes(..) => Ok(None),
        Effect::Goes(..) => Ok(None),
        Effect::Other => load_by_operation(&next.marked.op, next.a, fixed),
    }
}

/// Like `load_ahead`, but by the operation.
#[inline]
fn load_by_operation(op: &Op, a: u32, fixed: &[u8]) -> Result<Option<u32>, Wait>
    ensures loaded { IfOk result (λ word. (may_run_ahead op.now a ≡ true) × (word ≡ loads op.now a (byte_of fixed.now) no_memory)) }
    ensures refused { IfErr result (λ why. (why ≡ wait.NotHead) × (may_run_ahead op.now a ≡ false)) }
{
    match *op {
        Op::Load(..) => match fixed_load(op, a, fixed) {
            Some(word) => Ok(Some(word)),
            None => Err(Wait::NotHead),
        },
        Op::Store(..) | Op::Out(_) | Op::Halt => Err(Wait::NotHead),
        _ => Ok(None),
    }
}

/// The place of a unit after an instruction: before the next one of its task, or stopped.
#[inline(always)]
pub(crate) fn spot_after(next: &Next<'_>) -> Spot
    requires { next.now.index < 4096 }
    ensures { result ≡ place_after (leaves next.now.marked.now.stop (taken next.now.marked.now.op next.now.a next.now.b)) (edge next.now.marked.now.op next.now.index (taken next.now.marked.now.op next.now.a next.now.b)) (turn next.now.marked.now.op next.now.a next.now.b next.now.pc) }
{
    // One call for each case, so that the untaken one omits what only a taken branch needs.
    if next.marked.op.taken(next.a, next.b) {
        spot_where(next, true)
    } else {
        spot_where(next, false)
    }
}

/// Where a unit stands after an instruction, given whether a conditional branch is `taken`.
#[inline(always)]
fn spot_where(next: &Next<'_>, taken: bool) -> Spot
    requires { next.now.index < 4096 }
    ensures { result ≡ place_after (leaves next.now.marked.now.stop taken) (edge next.now.marked.now.op next.now.index taken) (turn next.now.marked.now.op next.now.a next.now.b next.now.pc) }
{
    let op = &next.marked.op;
    if !ends_task(next.marked.stop, taken) {
        if let Some(index) = leads_to(op, next.index, taken) {
            return Spot::Inside(index);
        }
    }
    Spot::Stopped(op.turn(next.a, next.b, next.pc))
}

/// Where a unit stands after an instruction that leads to an index, given whether a conditional branch is
/// `taken`.
#[inline(always)]
pub(crate) fn spot_at(next: &Next<'_>, taken: bool, to: u32) -> Spot
    requires index { next.now.index < 4096 }
    requires leads { edge next.now.marked.now.op next.now.index taken ≡ Some to }
    ensures { result ≡ place_after (leaves next.now.marked.now.stop taken) (Some to) (turn next.now.marked.now.op next.now.a next.now.b next.now.pc) }
{
    match next.marked.stop {
        Stop::None => Spot::Inside(to),
        _ => spot_with_stop_bits(*next, taken),
    }
}

/// Like `spot_at`, but for an instruction with stop bits, which are rare. Not inlined, so that the paths of
/// most instructions have no indirect jump on the stop bits.
#[inline(never)]
fn spot_with_stop_bits(next: Next<'_>, taken: bool) -> Spot
    requires { next.index < 4096 }
    ensures { result ≡ place_after (leaves next.entry.marked.now.stop taken) (edge next.entry.marked.now.op next.entry.index taken) (turn next.entry.marked.now.op next.entry.a next.entry.b next.entry.pc) }
{
    spot_where(&next, taken)
}

/// Where a unit stands after an instruction that continues at the following one, wherever the run is.
#[inline(always)]
pub(crate) fn spot_behind(next: &Next<'_>) -> Spot
    requires { next.now.index < 4096 }
    ensures { result ≡ place_after (leaves next.now.marked.now.stop false) (Some (next.now.index + 1)) ((next.now.pc + 4) % 2 ^ 32) }
{
    match next.marked.stop {
        Stop::None => Spot::Inside(next.index + 1),
        stop => spot_at_stop(stop, next.index, next.pc),
    }
}

/// Like `spot_behind`, but for an instruction with stop bits, which are rare.
#[inline(never)]
fn spot_at_stop(stop: Stop, index: u32, pc: u32) -> Spot
    requires { index < 4096 }
    ensures { result ≡ place_after (leaves stop false) (Some (index + 1)) ((pc + 4) % 2 ^ 32) }
{
    if ends_task(stop, false) {
        Spot::Stopped(pc.wrapping_add(4))
    } else {
        Spot::Inside(index + 1)
    }
}

/// Writes a word to a general register, unless that is register 0, and sends it where the instruction
/// forwards what it writes; what was sent stays as it was.
#[inline(always)]
pub(crate) fn write_word(
    local: &mut RegisterWords,
    port: &mut Port,
    register: Gpr,
    word: u32,
    forward: bool,
)
    ensures own { pairs local.new ≡ with_own (in_general register word) (pairs local.old) }
    ensures sent { sent_of port.new ≡ sent_with (λ r. forward && general register r) (in_general register word) (sent_of port.old) }
    ensures arrived { arrived_of port.new ≡ arrived_of port.old }
{
    if register.get() == 0 {
        return;
    }
    let register = Reg::from(register);
    local.put(register, word);
    if forward {
        port.send(register, word);
    }
}

/// Gives a register a word, if there is one.
#[inline]
fn put_some(local: &mut RegisterWords, register: Reg, word: Option<u32>)
    ensures { pairs local.new ≡ replaced register (option_or word (pairs local.old register)) (pairs local.old) }
{
    if let Some(word) = word {
        local.put(register, word);
    }
}

/// Sends a register with a word, if there is one; a register that was sent stays as it was.
#[inline]
fn send_some(port: &mut Port, register: Reg, word: Option<u32>)
    ensures sent { sent_of port.new ≡ replaced register (option_or (sent_of port.old register) word) (sent_of port.old) }
    ensures arrived { arrived_of port.new ≡ arrived_of port.old }
{
    if let Some(word) = word {
        port.send(register, word);
    }
}

/// Writes what an instruction computes or has loaded to each of its destinations.
#[inline(always)]
pub(crate) fn write(local: &mut RegisterWords, next: &Next<'_>, dests: RegSet, loaded: Option<u32>)
    requires { (r : ℕ) → has dests r ≡ dests_of next.now.marked.now.op r }
    ensures { pairs local.new ≡ with_own (writes next.now.marked.now.op next.now.a next.now.b next.now.pc loaded) (pairs local.old) }
{
    if !dests.is_empty() {
        write_each(local, next, dests, loaded);
    }
}

/// Writes what an instruction computes or has loaded to each register of `dests`, its destinations.
pub(crate) fn write_each(
    local: &mut RegisterWords,
    next: &Next<'_>,
    dests: RegSet,
    loaded: Option<u32>,
)
    requires { (r : ℕ) → has dests r ≡ dests_of next.now.marked.now.op r }
    ensures { pairs local.new ≡ with_own (writes next.now.marked.now.op next.now.a next.now.b next.now.pc loaded) (pairs local.old) }
{
    let op = &next.marked.op;
    let mut from = 0;
    while let Some(register) = next_member(dests, from) {
        let word = op.alu(next.a, next.b, next.pc, register).or(loaded);
        put_some(local, register, word);
        from = register.get() + 1;
    }
}

/// A unit's value of a register: 0 for register 0, else its own last write, else what arrived; `None` where it
/// has none yet.
#[inline(always)]
pub(crate) fn value_of(local: &RegisterWords, port: &Port, register: Reg) -> Option<u32>
    ensures { result ≡ value_in (pairs local.now) (arrived_of port.now) register }
{
    if register.get() == 0 {
        return Some(0);
    }
    match local.get(register) {
        None => port.arrived(register),
        own => own,
    }
}

/// Sends each register of a set with its value; one that was sent before stays as it was.
#[inline(never)]
pub(crate) fn send_each(port: &mut Port, local: &RegisterWords, set: RegSet)
    ensures sent { sent_of port.new ≡ sent_with (has set) (value_in (pairs local.now) (arrived_of port.old)) (sent_of port.old) }
    ensures arrived { arrived_of port.new ≡ arrived_of port.old }
{
    let mut from = 0;
    while let Some(register) = next_member(set, from) {
        send_some(port, register, value_of(local, port, register));
        from = register.get() + 1;
    }
}

/// Like `send_each`, but looks only at registers that have not been sent.
#[inline(always)]
pub(crate) fn send_unsent(port: &mut Port, local: &RegisterWords, set: RegSet)
    ensures sent { sent_of port.new ≡ sent_with (has set) (value_in (pairs local.now) (arrived_of port.old)) (sent_of port.old) }
    ensures arrived { arrived_of port.new ≡ arrived_of port.old }
{
    let unsent = set.minus(port.sent_set());
    if !unsent.is_empty() {
        send_each(port, local, unsent);
    }
}
