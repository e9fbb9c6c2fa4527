//! The statements of a program text, before names are resolved.

use mips_instructions::instruction::{BranchOneKind, BranchTwoKind, Op};
use mips_instructions::number::{Gpr, Place, RegSet};
use smallvec::SmallVec;
use std::alloc::AllocError;
use std::marker::Model;
use task_descriptor::descriptor::Stop;
use task_descriptor::name::Name;

/// The section that a line adds to.
#[derive(Clone, Copy, Debug, PartialEq, Eq)]
pub enum Section {
    /// Instructions.
    Text,
    /// Data memory.
    Data,
    /// Read-only data.
    Rodata,
}

/// A place in the code, as a text names it: by a label or by its code index.
#[derive(Clone, Copy, Debug, PartialEq, Eq)]
pub enum Target {
    /// The instruction after a code label.
    Label(Name),
    /// `@n`: the code index n.
    Index(Place),
}

/// An instruction as a text has it: one or two machine instructions, some with a name to be resolved.
#[derive(Clone, Copy, Debug, PartialEq, Eq)]
pub enum Instruction {
    /// An instruction of the machine.
    One(Op),
    /// Two machine instructions, as `li` may need.
    Two(Op, Op),
    /// `beq rs,rt,T`.
    BranchTwo(BranchTwoKind, Gpr, Gpr, Target),
    /// `blez rs,T`.
    BranchOne(BranchOneKind, Gpr, Target),
    /// `j T`.
    Jump(Target),
    /// `jal T`.
    JumpLink(Target),
    /// `la rd,NAME`: two machine instructions, which write a label's address to rd.
    LoadAddress(Gpr, Name),
}

/// The marks of an instruction: its forward and stop bits (ISCA 1995, section 2.2).
#[derive(Clone, Copy, Debug, PartialEq, Eq)]
pub struct Marks {
    /// `!f`: the forward bit.
    pub forward: bool,
    /// `!s`, `!st` or `!sn`: the stop bits.
    pub stop: Stop,
}

impl Marks {
    /// No forward bit and no stop bits.
    pub const NONE: Marks = Marks {
        forward: false,
        stop: Stop::None,
    };
}

/// The targets of a task, in the order of the text.
#[derive(Debug, Drop)]
pub struct Targets {
    items: Vec<Target>,
}

impl Model for Targets {
    ghost use Rattle.std.specs.Prelude.{List};
    ghost use Rattle.program_statements.specs.declared.statement.Target.{Target};

    ghost Value = { List Target };

    ghost view = { λ targets. targets.items.items };
}

impl Targets {
    ghost use Rattle.std.specs.Prelude.{◌≡◌};

    /// The list of these targets.
    pub(crate) fn new(items: Vec<Target>) -> Targets
        ensures { result ≡ items.items }
    {
        Targets { items }
    }

    /// The targets in their order.
    pub fn as_slice(&self) -> &[Target]
        ensures { result.now ≡ self.now }
    {
        &self.items
    }
}

/// The bytes that a `.word` or `.byte` statement adds to its section.
#[derive(Debug, Drop)]
pub struct Blob {
    // Those of two words need no memory of their own.
    bytes: SmallVec<u8, 8>,
}

impl Model for Blob {
    ghost use Rattle.std.specs.Prelude.{List, ℕ};

    ghost Value = { List ℕ };

    ghost view = { λ blob. blob.bytes.items };
}

impl Blob {
    ghost use Rattle.std.specs.Prelude.{◌≡◌, ◌++◌, OnOk, OnErr};

    /// These bytes.
    pub(crate) fn new(bytes: SmallVec<u8, 8>) -> Blob
        ensures { result ≡ bytes.items }
    {
        Blob { bytes }
    }

    /// The bytes in their order.
    pub fn as_slice(&self) -> &[u8]
        ensures { result.now ≡ self.now }
    {
        self.bytes.as_slice()
    }

    /// Adds bytes at the end.
    ///
    /// # Errors
    ///
    /// `AllocError` where memory was refused; nothing is changed then.
    pub fn append(&mut self, more: &[u8]) -> Result<(), AllocError>
        ensures ok { OnOk result (self.new ≡ self.old ++ more.now) }
        ensures err { OnErr result (self.new ≡ self.old) }
    {
        self.bytes.extend_from_slice(more)
    }
}

/// A `.task` statement: a task descriptor, before names are resolved.
#[derive(Debug, Drop)]
pub struct Task {
    /// The task's name, which is also the code label of its entry.
    pub name: Name,
    /// `create=`: the create mask, the registers that the task may produce.
    pub create: RegSet,
    /// `targets=`: the possible successors.
    pub targets: Targets,
}

/// A statement of a program text: what one line says after its labels.
#[derive(Debug, Drop)]
pub enum Statement {
    /// A line with labels alone, or with nothing.
    Empty,
    /// A label, which names the place after it.
    Label(Name),
    /// `.text`, `.data`, `.rodata`: the section that the lines after it add to.
    Section(Section),
    /// `.start NAME`: the task at which the program starts.
    Start(Name),
    /// `.task NAME create=.. targets=..`: a task descriptor.
    Task(Task),
    /// `.word` or `.byte`: these bytes.
    Bytes(Blob),
    /// `.space`: this many bytes that are 0, at most 65,536.
    Space(u32),
    /// An instruction with its marks.
    Code(Instruction, Marks),
}
