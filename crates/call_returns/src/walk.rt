//! The walk over the calls: function by function, through tasks and tail calls. A function is walked again when one that it
//! calls is seen to keep fewer registers.

ghost use Rattle.std.specs.Prelude.{◌<◌};

use crate::function::{Call, End, Function};
use crate::held::Held;
use crate::state::{State, saved_by_convention};
use mips_instructions::instruction::Op;
use mips_instructions::number::{Gpr, RegSet};
use mips_instructions::places::CODE_START;
use std::alloc::{AllocError, Global};
use task_descriptor::program::Program;
use task_graph::edges::leads_to;

/// The most steps of the walk for each instruction of the program.
const MOST_STEPS: usize = 32;

/// The most places that are looked at where an address is not seen.
const MOST_LISTED: usize = 64;

/// The address of the place after an instruction.
fn address_after(index: u32) -> u32 {
    CODE_START.wrapping_add(index.wrapping_add(1).wrapping_mul(4))
}

/// The instruction at an address, if one is there.
pub(crate) fn index_at(program: &Program, address: u32) -> Option<u32> {
    let offset = address.wrapping_sub(CODE_START);
    let index = offset / 4;
    (offset % 4 == 0 && (index as usize) < program.code().len()).then_some(index)
}

/// All registers.
fn every_register() -> RegSet {
    RegSet::from_bits(0x3_ffff_ffff).unwrap_or(RegSet::empty())
}

/// The registers of both sets.
fn common(one: RegSet, other: RegSet) -> RegSet {
    one.minus(one.minus(other))
}

/// A walk.
#[derive(Drop)]
pub(crate) struct Walk<'a> {
    alloc: Global,
    program: &'a Program,
    /// By index, for a jump to an address in a register, the tasks that reach it.
    owners: &'a [Vec<u32>],
    /// The functions that are seen; the first is where the program starts.
    pub(crate) functions: Vec<Function>,
    /// By index, the function that begins there.
    begins: Vec<Option<usize>>,
    /// The functions that are to be walked.
    due: Vec<usize>,
    /// The function that is walked; by index, where the state before an instruction of it is; these states; the
    /// instructions that are reached, and those whose state has changed since.
    current: Option<usize>,
    places: Vec<Option<usize>>,
    states: Vec<State>,
    reached: Vec<u32>,
    changed: Vec<u32>,
}

impl<'a> Walk<'a> {
    pub(crate) fn new(
        alloc: Global,
        program: &'a Program,
        owners: &'a [Vec<u32>],
    ) -> Result<Walk<'a>, AllocError> {
        let count = program.code().len();
        let mut begins = Vec::new(alloc);
        let mut places = Vec::new(alloc);
        begins.resize(count, None)?;
        places.resize(count, None)?;
        Ok(Walk {
            alloc,
            program,
            owners,
            functions: Vec::new(alloc),
            begins,
            due: Vec::new(alloc),
            current: None,
            places,
            states: Vec::new(alloc),
            reached: Vec::new(alloc),
            changed: Vec::new(alloc),
        })
    }

    /// Walks from where the program starts; whether the steps sufficed.
    pub(crate) fn walk(&mut self) -> Result<bool, AllocError> {
        self.function(self.program.start().get())?;
        let most = self.program.code().len().saturating_add(1);
        for _ in 0..most.saturating_mul(MOST_STEPS) {
            if let Some(index) = self.changed.pop() {
                self.step(index)?;
                continue;
            }
            self.finish()?;
            match self.due.pop() {
                Some(number) => self.begin(number)?,
                None => return Ok(true),
            }
        }
        Ok(false)
    }

    /// The function that begins at an index, if an instruction is there.
    fn function(&mut self, index: u32) -> Result<Option<usize>, AllocError> {
        let number = self.functions.len();
        match self.begins.get_mut(index as usize) {
            Some(begins) => match *begins {
                Some(known) => return Ok(Some(known)),
                None => *begins = Some(number),
            },
            None => return Ok(None),
        }
        self.functions.push(Function {
            entry: index,
            calls: Vec::new(self.alloc),
            kept: every_register(),
            ends: Vec::new(self.alloc),
            tasks: Vec::new(self.alloc),
            is_due: true,
        })?;
        self.due.push(number)?;
        Ok(Some(number))
    }

    /// Forgets the states of the function that was walked.
    fn forget(&mut self) {
        for index in &self.reached {
            if let Some(place) = self.places.get_mut(*index as usize) {
                *place = None;
            }
        }
        self.reached.clear();
        self.states.clear();
    }

    /// Begins to walk a function.
    fn begin(&mut self, number: usize) -> Result<(), AllocError> {
        self.forget();
        self.current = Some(number);
        let Some(function) = self.functions.get_mut(number) else {
            return Ok(());
        };
        function.is_due = false;
        function.ends.clear();
        function.tasks.clear();
        let entry = function.entry;
        self.arrive(entry, &State::at_entry())
    }

    /// Comes to an instruction with a state.
    fn arrive(&mut self, index: u32, state: &State) -> Result<(), AllocError> {
        let Some(place) = self.places.get_mut(index as usize) else {
            return Ok(());
        };
        if let Some(place) = *place {
            if let Some(before) = self.states.get_mut(place) {
                if before.join(state) {
                    self.changed.push(index)?;
                }
            }
            return Ok(());
        }
        *place = Some(self.states.len());
        self.states.push(*state)?;
        self.reached.push(index)?;
        self.changed.push(index)?;
        Ok(())
    }

    /// The state before an instruction.
    fn state(&self, index: u32) -> Option<State> {
        let place = (*self.places.get(index as usize)?)?;
        self.states.get(place).copied()
    }

    /// Goes on from an instruction.
    fn step(&mut self, index: u32) -> Result<(), AllocError> {
        let program = self.program;
        let Some(marked) = program.code().get(index as usize) else {
            return Ok(());
        };
        let Some(mut state) = self.state(index) else {
            return Ok(());
        };
        match marked.op {
            Op::JumpReg(register) => self.jump(index, state.held(register), &state),
            Op::JumpLink(place) => {
                let kept = self.call(index, place.get(), 31)?;
                match Gpr::new(31) {
                    Some(link) => self.come_back(index, link, kept, state),
                    None => Ok(()),
                }
            }
            Op::JumpLinkReg(link, register) => {
                let kept = self.call_by_register(index, state.held(register), link)?;
                self.come_back(index, link, kept, state)
            }
            _ => {
                state.execute(&marked.op);
                self.go_on(&marked.op, index, &state)
            }
        }
    }

    /// Goes on from an instruction that is no call and no jump to an address in a register.
    fn go_on(&mut self, op: &Op, index: u32, state: &State) -> Result<(), AllocError>
        requires { index < 4096 }
    {
        if let Some(next) = leads_to(op, index, false) {
            self.arrive(next, state)?;
        }
        match leads_to(op, index, true) {
            Some(next) => self.arrive(next, state),
            None => Ok(()),
        }
    }

    /// Goes on behind a call.
    fn come_back(
        &mut self,
        index: u32,
        link: Gpr,
        kept: RegSet,
        mut state: State,
    ) -> Result<(), AllocError> {
        state.come_back(link, address_after(index), kept);
        self.arrive(index.saturating_add(1), &state)
    }

    /// Notes a call, and says which registers what it calls keeps, as far as it is seen.
    fn call(&mut self, index: u32, place: u32, link: u8) -> Result<RegSet, AllocError> {
        let Some(number) = self.function(place)? else {
            return Ok(RegSet::empty());
        };
        let from = self.current.unwrap_or(0);
        let Some(function) = self.functions.get_mut(number) else {
            return Ok(RegSet::empty());
        };
        let kept = function.kept;
        let key = (index, from);
        match function
            .calls
            .binary_search_by_key(&key, |call| (call.index, call.from))
        {
            Ok(_) => {}
            Err(place) => function.calls.insert(place, Call { index, link, from })?,
        }
        Ok(kept)
    }

    /// Notes a call of what is at an address in a register: where that is not seen, of each target that is listed.
    fn call_by_register(
        &mut self,
        index: u32,
        held: Held,
        link: Gpr,
    ) -> Result<RegSet, AllocError> {
        let places = self.leads(index, held)?;
        let mut kept = every_register();
        for place in &places {
            let of_one = self.call(index, *place, link.get())?;
            kept = common(kept, of_one);
        }
        Ok(kept)
    }

    /// Goes on from a jump to an address in a register, if it does not leave the function.
    fn jump(&mut self, index: u32, held: Held, state: &State) -> Result<(), AllocError> {
        if self.is_return(held) {
            return Ok(());
        }
        let places = self.leads(index, held)?;
        for place in &places {
            self.arrive(*place, state)?;
        }
        Ok(())
    }

    /// Whether a register holds the address to which the function's calls come back.
    fn is_return(&self, held: Held) -> bool {
        let Held::Entry { register, more: 0 } = held else {
            return false;
        };
        let function = match self.current {
            Some(number) => self.functions.get(number),
            None => None,
        };
        register == 31
            || function.is_some_and(|function| function
                .calls
                .iter()
                .any(|call| call.link == register))
    }

    /// Where a jump to an address in a register may lead: where no instruction is seen, to each target that is listed.
    fn leads(&self, index: u32, held: Held) -> Result<Vec<u32>, AllocError> {
        let mut places = Vec::new(self.alloc);
        if let Held::Word(address) = held {
            if let Some(place) = index_at(self.program, address) {
                places.push(place)?;
                return Ok(places);
            }
        }
        if let Some(owners) = self.owners.get(index as usize) {
            for task in owners {
                self.add_targets(&mut places, *task)?;
            }
        }
        Ok(places)
    }

    /// Adds the targets of a task.
    fn add_targets(&self, places: &mut Vec<u32>, task: u32) -> Result<(), AllocError> {
        let Some(descriptor) = self.program.tasks().get(task as usize) else {
            return Ok(());
        };
        for target in descriptor.targets.as_slice() {
            if places.len() < MOST_LISTED && !places.contains(&target.get()) {
                places.push(target.get())?;
            }
        }
        Ok(())
    }

    /// Notes what is seen of the function that was walked, if one was.
    fn finish(&mut self) -> Result<(), AllocError> {
        let Some(number) = self.current else {
            return Ok(());
        };
        self.note_tasks(number)?;
        let kept = self.note_ends(number)?;
        let mut fewer = false;
        if let Some(function) = self.functions.get_mut(number) {
            let both = common(function.kept, kept);
            fewer = both != function.kept;
            function.kept = both;
        }
        if fewer {
            self.walk_callers(number)?;
        }
        Ok(())
    }

    /// Notes the tasks that begin inside of a function.
    fn note_tasks(&mut self, number: usize) -> Result<(), AllocError> {
        let tasks = self.program.tasks();
        let Some(function) = self.functions.get_mut(number) else {
            return Ok(());
        };
        for (task, descriptor) in tasks.iter().enumerate() {
            if let Some(Some(_)) = self.places.get(descriptor.entry.get() as usize) {
                if let Ok(task) = u32::try_from(task) {
                    function.tasks.push(task)?;
                }
            }
        }
        Ok(())
    }

    /// Notes the jumps to addresses in registers of a function, and says which registers it keeps at them. Where it is not
    /// seen where one leads, that is at least what the convention wants.
    fn note_ends(&mut self, number: usize) -> Result<RegSet, AllocError> {
        let mut kept = every_register();
        for place in 0..self.reached.len() {
            if let Some(end) = self.end_at(place) {
                kept = common(kept, self.kept_at(end));
                if let Some(function) = self.functions.get_mut(number) {
                    function.ends.push(end)?;
                }
            }
        }
        Ok(kept)
    }

    /// The jump to an address in a register that was reached at this place of the walk, if one was.
    fn end_at(&self, place: usize) -> Option<End> {
        let index = *self.reached.get(place)?;
        let state = self.state(index)?;
        match self.program.code().get(index as usize)?.op {
            Op::JumpReg(register) | Op::JumpLinkReg(_, register) => Some(End {
                index,
                held: state.held(register),
            }),
            _ => None,
        }
    }

    /// Whether the instruction at an index is a call.
    fn is_call(&self, index: u32) -> bool {
        match self.program.code().get(index as usize) {
            Some(marked) => matches!(marked.op, Op::JumpLinkReg(..)),
            None => false,
        }
    }

    /// The registers that are kept at a jump to an address in a register.
    fn kept_at(&self, end: End) -> RegSet {
        let unchanged = match self.state(end.index) {
            Some(state) => state.unchanged(),
            None => RegSet::empty(),
        };
        match end.held {
            _ if self.is_call(end.index) => every_register(),
            Held::Word(_) => every_register(),
            held if self.is_return(held) => unchanged,
            _ => unchanged.union(saved_by_convention()),
        }
    }

    /// Lets the functions that call one be walked again.
    fn walk_callers(&mut self, number: usize) -> Result<(), AllocError> {
        let Some(function) = self.functions.get(number) else {
            return Ok(());
        };
        let mut callers = Vec::new(self.alloc);
        for call in &function.calls {
            callers.push(call.from)?;
        }
        for caller in callers {
            self.walk_again(caller)?;
        }
        Ok(())
    }

    /// Lets a function be walked again, if it is not due.
    fn walk_again(&mut self, number: usize) -> Result<(), AllocError> {
        let Some(function) = self.functions.get_mut(number) else {
            return Ok(());
        };
        if !function.is_due {
            function.is_due = true;
            self.due.push(number)?;
        }
        Ok(())
    }
}
