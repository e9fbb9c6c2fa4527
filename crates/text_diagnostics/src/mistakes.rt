//! What is wrong with each item of a text.

use crate::advice::Made;
use crate::given::{Amounts, Given, Item, MOST_TASKS, Said};
use mips_instructions::instruction::Op;
use operand_forms::line_fault::LineFaultKind;
use program_statements::statement::{Instruction, Marks, Section, Statement, Target, Task};
use task_descriptor::descriptor::Stop;
use task_descriptor::marks::has_member;
use task_descriptor::name::Name;

/// The most errors that are shown of a text; of the rest only the number is shown.
pub(crate) const MOST_SHOWN: usize = 1_000;

/// The most instructions of a program.
const MOST_CODE: u64 = 4_096;

/// The most bytes of `.data`, and of `.rodata`.
const MOST_BYTES: u64 = 65_536;

/// The most targets of a task.
const MOST_TARGETS: usize = 16;

/// How a name is used.
#[derive(Clone, Copy, Debug, PartialEq, Eq)]
pub(crate) enum UsedAs {
    /// After `.start`: a label of code.
    Start,
    /// As the name of a `.task`: a label of code.
    Task,
    /// As the target of this number, from 0 on, of a `.task`: a label of code.
    Target(usize),
    /// As the last operand of a branch or a jump: a label of code.
    Operand,
    /// As the operand of a `la`: any label.
    Address,
}

/// A limit of a program.
#[derive(Clone, Copy, Debug, PartialEq, Eq)]
pub(crate) enum Limit {
    /// 4,096 instructions.
    Code,
    /// 65,536 bytes of data.
    Bytes,
    /// 65,536 bytes of read-only data.
    Fixed,
    /// 1,024 tasks.
    Tasks,
    /// 16 targets of a task.
    Targets,
}

/// What is wrong with an item of a text.
#[derive(Clone, Copy, Debug, PartialEq, Eq)]
pub(crate) enum Kind {
    /// Its line cannot be read in this section.
    Line(LineFaultKind, Section),
    /// It is a label of a name that another has.
    LabelTwice,
    /// It is a task of a name that another has.
    TaskTwice,
    /// It is a second `.start`.
    StartTwice,
    /// It uses a name that is no label.
    NoLabel(UsedAs),
    /// It uses a label of data where one of code is wanted.
    DataLabel(UsedAs),
    /// It passes a limit of a program.
    Passes(Limit),
    /// It is a task whose create mask has `$0`.
    CreatesZero,
    /// `!f` stands on an instruction that writes no register.
    UnfitForward,
    /// A stop stands on `halt`.
    StopOnHalt,
    /// `!st` or `!sn` stands on what is no conditional branch.
    OneSidedStop,
    /// It is a `release` of `$0`.
    ReleasesZero,
    /// It is a task whose label has no instruction after it.
    NoInstruction,
    /// It is a task that begins where another begins.
    SameEntry,
    /// It says that the program starts where no task begins.
    NoTaskThere,
}

/// A mistake. Items are given by their numbers, from 0 on.
#[derive(Clone, Copy, Debug, PartialEq, Eq)]
pub(crate) struct Mistake {
    /// The item.
    pub(crate) item: usize,
    /// What is wrong with it.
    pub(crate) kind: Kind,
    /// Another item that shows it.
    pub(crate) other: Option<usize>,
}

/// An item that is judged.
#[derive(Clone, Copy)]
struct Judged<'a> {
    given: Given<'a>,
    /// The number of the item, from 0 on.
    number: usize,
    item: &'a Item,
    /// Its statement, if it is one.
    statement: Option<&'a Statement>,
    /// How much stands before it.
    before: Amounts,
}

/// Whether an instruction of a text writes a register.
fn writes(instruction: &Instruction) -> bool {
    match instruction {
        Instruction::One(op) | Instruction::Two(_, op) => has_member(op.dests()),
        Instruction::JumpLink(_) => true,
        Instruction::LoadAddress(register, _) => register.get() > 0,
        _ => false,
    }
}

/// Why marks do not fit an instruction, if they do not.
fn unfit(instruction: &Instruction, marks: Marks) -> Option<Kind> {
    let is_one_sided = matches!(marks.stop, Stop::Taken | Stop::NotTaken);
    match instruction {
        _ if marks.forward && !writes(instruction) => Some(Kind::UnfitForward),
        Instruction::BranchTwo(..) | Instruction::BranchOne(..) => None,
        Instruction::One(Op::Halt) if !matches!(marks.stop, Stop::None) => Some(Kind::StopOnHalt),
        _ if is_one_sided => Some(Kind::OneSidedStop),
        Instruction::One(Op::Release(set)) if set.bits() % 2 == 1 => Some(Kind::ReleasesZero),
        _ => None,
    }
}

impl Judged<'_> {
    /// This mistake of the item, with another item that shows it.
    fn mistake(&self, kind: Kind, other: Option<usize>) -> Option<Mistake> {
        let item = self.number;
        Some(Mistake { item, kind, other })
    }

    /// That its line cannot be read.
    fn unreadable(&self) -> Option<Mistake> {
        match self.item.said {
            Said::Fault(wrong, section) => self.mistake(Kind::Line(wrong?, section), None),
            _ => None,
        }
    }

    /// That it stands a second time.
    fn twice(&self) -> Option<Mistake> {
        let known = self.given.known;
        let (kind, first) = match (self.statement, self.item.said) {
            (Some(Statement::Task(task)), _) => {
                let first = known.tasks.get(task.name.as_str())?;
                (Kind::TaskTwice, first.number)
            }
            (Some(Statement::Start(_)), _) => (Kind::StartTwice, known.start?),
            (_, Said::Label(true)) => {
                let first = known.labels.get(self.given.text_at(self.item.span))?;
                (Kind::LabelTwice, first.number)
            }
            _ => return None,
        };
        if first == self.number {
            return None;
        }
        self.mistake(kind, Some(first))
    }

    /// The limit that it passes: each limit is passed once, by the first statement beyond it, but each task with too many
    /// targets passes theirs.
    fn limit_passed(&self) -> Option<Mistake> {
        let statement = self.statement?;
        let before = self.before;
        let mut after = before;
        after.add(self.item.section, statement);
        let targets = match statement {
            Statement::Task(task) => task.targets.as_slice().len(),
            _ => 0,
        };
        let passes = |most: u64, before: u64, after: u64| before <= most && most < after;
        let most_tasks = MOST_TASKS as u64;
        let rows = [
            (targets > MOST_TARGETS, Limit::Targets),
            (passes(MOST_CODE, before.code, after.code), Limit::Code),
            (passes(MOST_BYTES, before.bytes, after.bytes), Limit::Bytes),
            (passes(MOST_BYTES, before.fixed, after.fixed), Limit::Fixed),
            (passes(most_tasks, before.tasks, after.tasks), Limit::Tasks),
        ];
        let (_, limit) = rows.iter().find(|row| row.0)?;
        self.mistake(Kind::Passes(*limit), None)
    }

    /// That a name which it uses is no label of code, or after `la` no label.
    fn unknown(&self, name: &Name, used_as: UsedAs) -> Option<Mistake> {
        let known = self.given.known;
        let is_any = matches!(used_as, UsedAs::Address);
        match known.labels.get(name.as_str()) {
            Some(_) if is_any || known.code_label(name.as_str()).is_some() => None,
            Some(label) => self.mistake(Kind::DataLabel(used_as), Some(label.number)),
            None => self.mistake(Kind::NoLabel(used_as), None),
        }
    }

    /// What does not fit in it.
    fn unfit(&self) -> Option<Mistake> {
        let kind = match self.statement? {
            Statement::Task(task) if task.create.bits() % 2 == 1 => Kind::CreatesZero,
            Statement::Code(instruction, marks) => unfit(instruction, *marks)?,
            _ => return None,
        };
        self.mistake(kind, None)
    }

    /// That it is a task which begins where it should not.
    fn bad_entry(&self) -> Option<Mistake> {
        let known = self.given.known;
        let is_task = matches!(self.statement, Some(Statement::Task(_)));
        if !is_task || !known.is_read || self.twice().is_some() {
            return None;
        }
        let own = known
            .entries
            .iter()
            .find(|entry| entry.task == self.number)?;
        if own.label.code >= known.all.code {
            return self.mistake(Kind::NoInstruction, Some(own.label.number));
        }
        let first = known.task_at(own.label.code)?;
        if first.task == self.number {
            return None;
        }
        self.mistake(Kind::SameEntry, Some(first.task))
    }

    /// That the program starts where no task begins, if the item says where it starts: a `.start`, or without one the first
    /// instruction.
    fn bad_start(&self) -> Option<Mistake> {
        let known = self.given.known;
        if !known.is_read || known.all.tasks == 0 || !known.is_placed {
            return None;
        }
        let index = match self.statement? {
            Statement::Start(name) => known.code_label(name.as_str())?.code,
            Statement::Code(_, _) if known.start.is_none() && self.before.code == 0 => 0,
            _ => return None,
        };
        if known.task_at(index).is_some() {
            return None;
        }
        self.mistake(Kind::NoTaskThere, None)
    }
}

/// What was found, in the order of the items.
#[derive(Drop)]
pub(crate) struct Found {
    /// The first mistakes.
    pub(crate) list: Vec<Mistake>,
    /// How many more there are.
    pub(crate) more: usize,
}

impl Found {
    /// Adds a mistake, if there is one.
    fn add(&mut self, mistake: Option<Mistake>) -> Made<()> {
        match mistake {
            Some(mistake) if self.list.len() < MOST_SHOWN => self.list.push(mistake)?,
            Some(_) => self.more = self.more.saturating_add(1),
            None => {}
        }
        Ok(())
    }

    /// Adds the names of a task that are no labels of code: its own, and those of its targets.
    fn add_task(&mut self, at: &Judged<'_>, task: &Task) -> Made<()> {
        self.add(at.unknown(&task.name, UsedAs::Task))?;
        for (index, target) in task.targets.as_slice().iter().enumerate() {
            if let Target::Label(name) = target {
                self.add(at.unknown(name, UsedAs::Target(index)))?;
            }
        }
        Ok(())
    }

    /// Adds the names that an item uses and that are no labels of the wanted kind.
    fn add_unknown(&mut self, at: &Judged<'_>) -> Made<()> {
        let mistake = match at.statement {
            Some(Statement::Task(task)) => return self.add_task(at, task),
            Some(Statement::Start(name)) => at.unknown(name, UsedAs::Start),
            Some(Statement::Code(instruction, _)) => match instruction {
                Instruction::BranchTwo(_, _, _, Target::Label(name))
                | Instruction::BranchOne(_, _, Target::Label(name))
                | Instruction::Jump(Target::Label(name))
                | Instruction::JumpLink(Target::Label(name)) => at.unknown(name, UsedAs::Operand),
                Instruction::LoadAddress(_, name) => at.unknown(name, UsedAs::Address),
                _ => None,
            },
            _ => None,
        };
        self.add(mistake)
    }

    /// Adds all that is wrong with an item.
    fn add_item(&mut self, at: &Judged<'_>) -> Made<()> {
        self.add(at.unreadable())?;
        self.add(at.twice())?;
        self.add(at.limit_passed())?;
        if at.given.known.is_read {
            self.add_unknown(at)?;
        }
        self.add(at.unfit())?;
        self.add(at.bad_entry())?;
        self.add(at.bad_start())
    }
}

/// What is wrong with each item of a text.
pub(crate) fn mistakes(given: &Given<'_>) -> Made<Found> {
    let known = given.known;
    let mut found = Found {
        list: Vec::new(given.alloc),
        more: known.left_out,
    };
    let mut before = Amounts::default();
    for (number, item) in known.items.iter().enumerate() {
        let statement = known.statement(item);
        found.add_item(&Judged {
            given: *given,
            number,
            item,
            statement,
            before,
        })?;
        if let Some(statement) = statement {
            before.add(item.section, statement);
        }
    }
    Ok(found)
}
