//! Where the jumps to addresses in registers (`jr`, `jalr`) lead that tasks reach. Places are code indexes.

ghost use Rattle.std.specs.Prelude.{◌≡◌, IfOk, OnOk};
ghost use Rattle.std.specs.List.{All};
ghost use Rattle.std.specs.List.Sorted.{IsStrictlyIncreasing};
ghost use Rattle.task_descriptor.specs.Listing.{Listing};
ghost use Rattle.call_returns.specs.Returns.{behind, ComesBack, IsBehindCall, IsTold, IsWith};

use crate::function::Function;
use crate::held::Held;
use crate::walk::{Walk, index_at};
use mask_certificate::certificate::Cert;
use mips_instructions::instruction::Op;
use std::alloc::{AllocError, Global};
use task_descriptor::descriptor::Stop;
use task_descriptor::program::Program;

/// The most places that are listed for one jump: more than the 16 targets that a task may have.
pub const MOST_PLACES: usize = 32;

/// The most jumps, each counted for each task that reaches it, of which it is told where they lead.
const MOST_JUMPS: usize = 4096;

/// A jump to an address in a register (`jr`, `jalr`), as one task reaches it.
#[derive(Debug, Drop)]
pub struct Jump {
    /// The code index of the jump.
    pub index: u32,
    /// The number of the task, from 0.
    pub task: u32,
    /// The code indexes behind the calls to which it is seen to return, strictly rising.
    pub returns: Vec<u32>,
    /// The code indexes to which it is seen to lead, strictly rising, at most `MOST_PLACES`: those in `returns`, and the one
    /// whose address the register is seen to hold.
    pub places: Vec<u32>,
    /// Whether `places` is all, as far as the walk sees.
    pub is_whole: bool,
    /// Whether it leads to no place, and the register holds what it held when the program started: nobody called.
    pub is_uncalled: bool,
}

/// What a walk over a program's calls found: where jumps to addresses in registers lead, and the calls that it came to.
#[derive(Debug, Drop)]
pub struct Returns {
    jumps: Vec<Jump>,
    calls: Vec<u32>,
}

impl Returns {
    /// The result for a program that nobody has walked: no jumps and no calls.
    pub fn none(alloc: Global) -> Returns {
        Returns {
            jumps: Vec::new(alloc),
            calls: Vec::new(alloc),
        }
    }

    /// The jumps to addresses in registers that tasks reach, in the order of the tasks.
    pub fn jumps(&self) -> &[Jump]
        ensures { result.now ≡ self.now.jumps.items }
    {
        &self.jumps
    }

    /// Whether the walk came to a call (`jal`, `jalr`) at this code index.
    pub fn has_seen_call(&self, index: u32) -> bool {
        self.calls.contains(&index)
    }
}

/// A way to a jump: through this function, the register holding this.
#[derive(Clone, Copy, Debug)]
struct Way {
    function: usize,
    held: Held,
}

/// The return point of a call: the code index behind it, which may be the end of the code; `None` if no `jal` or `jalr`
/// is at `index`, a code index.
pub fn behind(program: &Program, index: u32) -> Option<u32>
    ensures { result ≡ behind program.now index }
{
    match program.code().get(index as usize)?.op {
        Op::JumpLink(_) | Op::JumpLinkReg(_, _) => Some(index + 1),
        _ => None,
    }
}

/// Whether an instruction is a jump to an address in a register.
fn is_indirect(op: &Op) -> bool {
    matches!(op, Op::JumpReg(_) | Op::JumpLinkReg(..))
}

/// Whether a program has a jump to an address in a register, a `jr` or a `jalr`.
pub fn has_indirect(program: &Program) -> bool {
    program.code().iter().any(|marked| is_indirect(&marked.op))
}

/// As many empty lists as there are instructions.
fn lists<T: Drop>(alloc: Global, count: usize) -> Result<Vec<Vec<T>>, AllocError> {
    let mut lists = Vec::new(alloc);
    for _ in 0..count {
        lists.push(Vec::new(alloc))?;
    }
    Ok(lists)
}

/// A jump to an address in a register that a task reaches.
#[derive(Clone, Copy, Debug)]
struct Site {
    index: u32,
    task: u32,
}

/// By index, for a jump to an address in a register, the tasks that reach it.
fn owners_of(
    alloc: Global,
    program: &Program,
    sites: &[Site],
) -> Result<Vec<Vec<u32>>, AllocError> {
    let mut owners = lists(alloc, program.code().len())?;
    for site in sites {
        if let Some(tasks) = owners.get_mut(site.index as usize) {
            tasks.push(site.task)?;
        }
    }
    Ok(owners)
}

/// Adds the jumps of a task.
fn add_sites(
    program: &Program,
    least: &Cert,
    task: u32,
    sites: &mut Vec<Site>,
) -> Result<(), AllocError> {
    for (index, _) in least.list(task) {
        let marked = program.code().get(*index as usize);
        if marked.is_some_and(|marked| is_indirect(&marked.op)) && sites.len() < MOST_JUMPS {
            sites.push(Site {
                index: *index,
                task,
            })?;
        }
    }
    Ok(())
}

/// The jumps that tasks reach, one task after another.
fn sites_of(alloc: Global, program: &Program, least: &Cert) -> Result<Vec<Site>, AllocError> {
    let mut sites = Vec::new(alloc);
    if !has_indirect(program) {
        return Ok(sites);
    }
    for task in 0..program.tasks().len() {
        add_sites(program, least, task as u32, &mut sites)?;
    }
    Ok(sites)
}

/// By index, the ways to each jump.
fn ways_of(
    alloc: Global,
    count: usize,
    functions: &[Function],
) -> Result<Vec<Vec<Way>>, AllocError> {
    let mut ways = lists(alloc, count)?;
    for (number, function) in functions.iter().enumerate() {
        add_ways(&mut ways, number, function)?;
    }
    Ok(ways)
}

/// Adds the ways through a function.
fn add_ways(
    ways: &mut Vec<Vec<Way>>,
    number: usize,
    function: &Function,
) -> Result<(), AllocError> {
    for end in &function.ends {
        if let Some(list) = ways.get_mut(end.index as usize) {
            list.push(Way {
                function: number,
                held: end.held,
            })?;
        }
    }
    Ok(())
}

/// Adds a place to some, if it is not there; whether it is there then.
#[tactic(auto, using(crate::proofs::Places::as_they_are, crate::proofs::Places::one_more))]
fn add(places: &mut Vec<u32>, place: u32) -> Result<bool, AllocError>
    ensures { OnOk result (IsWith places.old.items place places.new.items) }
{
    if places.contains(&place) {
        return Ok(true);
    }
    if places.len() >= MOST_PLACES {
        return Ok(false);
    }
    places.push(place)?;
    Ok(true)
}

/// Puts places in order.
fn rise(places: &mut Vec<u32>)
    ensures rising { IsStrictlyIncreasing places.new.items }
    ensures behind { (p : Listing) → All (IsBehindCall p) places.old.items → All (IsBehindCall p) places.new.items }
{
    places.sort_unstable();
    places.dedup();
}

impl Jump {
    /// A jump of which nothing is seen.
    #[tactic(auto, using(crate::proofs::Places::none_yet))]
    fn unseen(alloc: Global, site: Site) -> Jump
        ensures { (p : Listing) → ComesBack p result }
    {
        Jump {
            index: site.index,
            task: site.task,
            returns: Vec::new(alloc),
            places: Vec::new(alloc),
            is_whole: false,
            is_uncalled: false,
        }
    }

    /// Adds a place to which it leads.
    fn lead(&mut self, place: u32) -> Result<(), AllocError>
        ensures { OnOk result (self.new.returns ≡ self.old.returns) }
    {
        let is_there = add(&mut self.places, place)?;
        self.is_whole = self.is_whole && is_there;
        Ok(())
    }

    /// Adds a place behind a call to which it comes back.
    fn come_back(&mut self, program: &Program, place: u32) -> Result<(), AllocError>
        requires behind { IsBehindCall program.now place }
        requires others { ComesBack program.now self.old }
        ensures { OnOk result (ComesBack program.now self.new) }
    {
        self.lead(place)?;
        add(&mut self.returns, place)?;
        Ok(())
    }

    /// Puts its places in order.
    fn rise(&mut self, program: &Program)
        requires { ComesBack program.now self.old }
        ensures { IsTold program.now self.new }
    {
        rise(&mut self.places);
        rise(&mut self.returns);
    }
}

/// What is needed to tell where jumps lead.
#[derive(Clone, Copy)]
struct Seen<'a> {
    program: &'a Program,
    least: &'a Cert,
    functions: &'a [Function],
}

impl<'a> Seen<'a> {
    /// Whether a call ends its task.
    fn ends_task(&self, call: u32) -> bool {
        let marked = self.program.code().get(call as usize);
        marked.is_some_and(|marked| matches!(marked.stop, Stop::Always))
    }

    /// Whether a call stands in a task, and does not end it.
    fn is_within(&self, task: u32, call: u32) -> bool {
        self.least.mask(task, call).is_some() && !self.ends_task(call)
    }

    /// Whether a task begins where a function does.
    fn begins(&self, task: u32, function: &Function) -> bool {
        let descriptor = self.program.tasks().get(task as usize);
        descriptor.is_some_and(|descriptor| descriptor.entry.get() == function.entry)
    }

    /// Adds where a jump leads by a way.
    fn add_way(&self, jump: &mut Jump, op: &Op, way: Way) -> Result<(), AllocError>
        requires { ComesBack self.now.program.now jump.old }
        ensures { OnOk result (ComesBack self.now.program.now jump.new) }
    {
        match (op, way.held) {
            (_, Held::Word(address)) => match index_at(self.program, address) {
                Some(place) => jump.lead(place),
                None => {
                    jump.is_whole = false;
                    Ok(())
                }
            },
            (Op::JumpReg(_), Held::Entry { register, more: 0 }) => {
                self.add_returns(jump, way.function, register)
            }
            _ => {
                jump.is_whole = false;
                Ok(())
            }
        }
    }

    /// Adds to where the calls of a function come back. Where the task begins inside of the function, those are all; where
    /// it begins with the function, those that end their tasks, and of the others it is not seen whether they do; else
    /// those in the task.
    fn add_returns(&self, jump: &mut Jump, number: usize, register: u8) -> Result<(), AllocError>
        requires { ComesBack self.now.program.now jump.old }
        ensures { OnOk result (ComesBack self.now.program.now jump.new) }
    {
        let Some(function) = self.functions.get(number) else {
            return Ok(());
        };
        let is_inside = function.tasks.contains(&jump.task);
        if !function.calls.iter().any(|call| call.link == register) {
            let is_uncalled = number == 0 && register == 31 && is_inside;
            jump.is_uncalled = jump.is_uncalled || is_uncalled;
            jump.is_whole = jump.is_whole && is_uncalled;
        }
        let begins = self.begins(jump.task, function);
        for call in &function.calls {
            let is_sure = is_inside && (!begins || self.ends_task(call.index));
            if call.link != register {
                continue;
            }
            if is_sure || self.is_within(jump.task, call.index) {
                self.add_return(jump, call.index)?;
            } else if is_inside {
                jump.is_whole = false;
            }
        }
        Ok(())
    }

    /// Adds that a jump comes back from a call.
    fn add_return(&self, jump: &mut Jump, call: u32) -> Result<(), AllocError>
        requires { ComesBack self.now.program.now jump.old }
        ensures { OnOk result (ComesBack self.now.program.now jump.new) }
    {
        match behind(self.program, call) {
            Some(place) => jump.come_back(self.program, place),
            None => Ok(()),
        }
    }

    /// Tells of a jump where it leads by some ways.
    fn tell(&self, alloc: Global, site: Site, ways: &[Way]) -> Result<Jump, AllocError>
        ensures { IfOk result (IsTold self.now.program.now) }
    {
        let mut jump = Jump::unseen(alloc, site);
        if let Some(marked) = self.program.code().get(site.index as usize) {
            jump.is_whole = !ways.is_empty();
            self.add_ways(&mut jump, &marked.op, ways)?;
            jump.is_uncalled = jump.is_uncalled && jump.places.is_empty();
        }
        jump.rise(self.program);
        Ok(jump)
    }

    /// Adds where a jump leads by some ways.
    fn add_ways(&self, jump: &mut Jump, op: &Op, ways: &[Way]) -> Result<(), AllocError>
        requires { ComesBack self.now.program.now jump.old }
        ensures { OnOk result (ComesBack self.now.program.now jump.new) }
    {
        for way in ways {
            self.add_way(jump, op, *way)?;
        }
        Ok(())
    }

    /// Tells of jumps where they lead; by index, the ways to each.
    fn tell_all(
        &self,
        alloc: Global,
        sites: &[Site],
        ways: &[Vec<Way>],
    ) -> Result<Vec<Jump>, AllocError>
        ensures { IfOk result (λ told. All (IsTold self.now.program.now) told.items) }
    {
        let mut told = Vec::new(alloc);
        for site in sites {
            let ways: &[Way] = match ways.get(site.index as usize) {
                Some(ways) => ways.as_slice(),
                None => &[],
            };
            let jump = self.tell(alloc, *site, ways)?;
            told.push(jump)?;
        }
        Ok(told)
    }
}

/// Adds the calls of a function.
fn add_calls(calls: &mut Vec<u32>, function: &Function) -> Result<(), AllocError> {
    for call in &function.calls {
        calls.push(call.index)?;
    }
    Ok(())
}

/// Where the jumps to addresses in registers lead that the tasks of a program reach. `least` is its least certificate.
///
/// Where a program has too many such jumps (4,096, counted for each task that reaches them), or the walk gives up, each is
/// listed with no place, and no call has been seen.
///
/// # Errors
///
/// `AllocError` where memory was refused.
pub fn returns_of(alloc: Global, program: &Program, least: &Cert) -> Result<Returns, AllocError>
    ensures { IfOk result (λ seen. All (IsTold program.now) seen.jumps.items) }
{
    let sites = sites_of(alloc, program, least)?;
    let mut calls = Vec::new(alloc);
    let unseen = Seen {
        program,
        least,
        functions: &[],
    };
    if sites.is_empty() || sites.len() >= MOST_JUMPS {
        let jumps = unseen.tell_all(alloc, &sites, &[])?;
        return Ok(Returns { jumps, calls });
    }
    let owners = owners_of(alloc, program, &sites)?;
    let mut walk = Walk::new(alloc, program, &owners)?;
    if !walk.walk()? {
        let jumps = unseen.tell_all(alloc, &sites, &[])?;
        return Ok(Returns { jumps, calls });
    }
    let ways = ways_of(alloc, program.code().len(), &walk.functions)?;
    let seen = Seen {
        program,
        least,
        functions: &walk.functions,
    };
    let jumps = seen.tell_all(alloc, &sites, &ways)?;
    for function in &walk.functions {
        add_calls(&mut calls, function)?;
    }
    Ok(Returns { jumps, calls })
}
