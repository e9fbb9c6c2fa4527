//! What the rules look at in a program, found out once for all its tasks.

use crate::look::{Look, look_through, nothing};
use mips_instructions::number::Place;
use std::alloc::{AllocError, Global};
use std::marker::Model;
use task_descriptor::program::Program;

/// How many instructions a program has at most.
pub(crate) const MOST_PLACES: usize = 4096;

/// How many indices there are, including the one after the longest code.
pub(crate) const MOST_INDICES: usize = 4097;

/// A program with what the rules look at in each of its instructions, and with the code indices at which its
/// tasks begin, so that several tasks can be checked without looking at the program again. A contract sees it
/// as the program.
#[derive(Drop)]
pub struct Survey<'a> {
    program: &'a Program,
    looks: &'a [Look],
    begins: &'a [bool],
}

impl<'a> Model for Survey<'a> {
    ghost use Rattle.task_descriptor.specs.Listing.{Listing};

    ghost Value = { Listing };

    ghost use Rattle.mark_checker.specs.Looks.{AreLooks, AreEntries};

    ghost view = { λ s. s.program.now };

    ghost invariant = { λ s. AreLooks s.program.now s.looks.now × AreEntries s.program.now s.begins.now };
}

impl<'a> Survey<'a> {
    ghost use Rattle.std.specs.Prelude.{◌≡◌};
    ghost use Rattle.task_graph.specs.Soundness.{is_entry};
    ghost use Rattle.mark_checker.specs.Looks.{AreEntries, AreLooks};

    /// The survey of a program, from what was found out about it.
    pub(crate) fn over(program: &'a Program, looks: &'a [Look], begins: &'a [bool]) -> Survey<'a>
        requires looks { AreLooks program.now looks.now }
        requires entries { AreEntries program.now begins.now }
        ensures { result ≡ program.now }
    {
        Survey {
            program,
            looks,
            begins,
        }
    }

    /// The surveyed program.
    pub fn program(&self) -> &'a Program
        ensures { result.now ≡ self.now }
    {
        self.program
    }

    /// What is looked at in the program's instructions, each at its index.
    #[inline]
    pub(crate) fn looks(&self) -> &[Look]
        ensures { AreLooks self.now result.now }
    {
        self.looks
    }

    /// Whether a task begins at an index.
    #[inline]
    pub(crate) fn begins_task(&self, index: Place) -> bool
        ensures { result ≡ is_entry self.now index }
    {
        self.begins[index.get() as usize]
    }
}

/// A program and the memory of its survey, some 170 kilobytes of the heap. A contract sees it as the program.
#[derive(Drop)]
pub struct Surveyed<'a> {
    program: &'a Program,
    looks: Vec<Look>,
    begins: Vec<bool>,
}

impl<'a> Model for Surveyed<'a> {
    ghost use Rattle.task_descriptor.specs.Listing.{Listing};

    ghost Value = { Listing };

    ghost use Rattle.mark_checker.specs.Looks.{AreLooks, AreEntries};

    ghost view = { λ s. s.program.now };

    ghost invariant = { λ s. AreLooks s.program.now s.looks.items × AreEntries s.program.now s.begins.items };
}

impl<'a> Surveyed<'a> {
    ghost use Rattle.std.specs.Prelude.{◌≡◌, IfOk};

    /// Surveys a program.
    ///
    /// # Errors
    ///
    /// `AllocError` where memory was refused.
    pub fn new(alloc: Global, program: &'a Program) -> Result<Surveyed<'a>, AllocError>
        ensures { IfOk result (λ surveyed. surveyed ≡ program.now) }
    {
        let mut looks = Vec::new(alloc);
        looks.resize(MOST_PLACES, nothing())?;
        look_through(program, &mut looks);
        let mut begins = Vec::new(alloc);
        begins.resize(MOST_INDICES, false)?;
        mark_entries(program, &mut begins);
        Ok(Surveyed {
            program,
            looks,
            begins,
        })
    }

    /// The survey, borrowed from this memory.
    pub fn survey(&self) -> Survey<'_>
        ensures { result ≡ self.now }
    {
        Survey::over(self.program, self.looks.as_slice(), self.begins.as_slice())
    }
}

ghost use Rattle.std.specs.Prelude.{◌≡◌, false, replicate};
ghost use Rattle.mark_checker.specs.Looks.{AreEntries};

/// Marks each index at which a task begins.
pub(crate) fn mark_entries(program: &Program, begins: &mut [bool])
    requires { begins.old ≡ replicate 4097 false }
    ensures { AreEntries program.now begins.new }
{
    for descriptor in program.tasks() {
        begins[descriptor.entry.get() as usize] = true;
    }
}
