//! The vocabulary of pictures. An element has a place, a class and, if it is a label, words; a shape also has a meaning.
//! All lengths are in hundredths of a pixel, from the left and from the top; units have their numbers round the ring,
//! tasks their numbers in the program, both from 0.

use machine_model::event::Standing;
use task_lives::life::{Ending, Life};
use task_lives::tally::Tally;

/// The look of an element: a class of the style sheet.
#[derive(Clone, Copy, Debug)]
pub enum Style {
    /// Further text.
    Quiet,
    /// The ground of every other lane.
    Ground,
    /// The number of a unit, before its lane.
    UnitName,
    /// A line up through the lanes at a number of the axis.
    Grid,
    /// The axis of events or steps.
    Axis,
    /// A number below the axis.
    AxisNumber,
    /// What the axis counts.
    Caption,
    /// The bar of a life with this ending.
    Bar(Ending),
    /// The share of a stretch that lives with this ending had.
    Share(Ending),
    /// The name of a task on its bar.
    TaskName,
    /// An instruction.
    Instruction,
    /// An instruction, where events have little room.
    FineInstruction,
    /// The instruction that the picture is about.
    ShownInstruction,
    /// A register that travels from one unit to the next.
    Arrow,
    /// A register that travels from one unit to the next, where events have little room.
    FineArrow,
    /// The number of the register, right of its arrow.
    RegisterName,
    /// Where a squash begins.
    SquashMark,
    /// The bar of the task that halted.
    Halted,
    /// The bar of the task with which the run ended otherwise: by a trap, or at an exit that is not listed.
    Trapped,
    /// Where a unit is the head, over its bar.
    Leads,
    /// A step in which a unit waits for a register.
    WaitForRegister,
    /// A step in which a unit waits to be the head.
    WaitForTurn,
    /// A step in which a unit has to pass on a register that has not arrived.
    WaitToPass,
}

/// The words of a label.
#[derive(Clone, Copy, Debug)]
pub enum LabelText {
    /// The tally of the lives.
    Sums(Tally),
    /// How the run is at the end of its history.
    HowItStands(Standing),
    /// The number of a unit.
    OfUnit(u32),
    /// Units from one number to another, which never had a task.
    Idle(u32, u32),
    /// The number of an event or a step, from 1.
    ColumnNumber(u32),
    /// What the axis counts.
    OfAxis(Counted),
    /// The name of the task with this number: all of it, or this many letters and three points.
    Task(u32, usize),
    /// A register's number.
    Register(u8),
    /// The note of a picture of single events or steps.
    Single(Counted),
    /// The note of a picture of a long run, with the number of events or steps that are summed in a column.
    Summed(Counted, u32),
}

/// What a picture counts from left to right.
#[derive(Clone, Copy, Debug)]
pub enum Counted {
    /// Events.
    Events,
    /// Steps.
    Steps,
}

/// The columns of a picture, from left to right, and its lanes.
#[derive(Clone, Copy, Debug)]
pub struct Axis {
    /// What the columns are.
    pub counted: Counted,
    /// How many units, and so lanes, there are.
    pub units: u32,
    /// How many units have a lane: those from 0 on that ever had a task, and all those between.
    pub lanes: u32,
    /// How many events or steps come before the first one that is drawn.
    pub before: u32,
    /// How many columns there are: events or steps.
    pub count: u32,
    /// How many events or steps there are in all.
    pub total: u32,
}

/// What happens in a stretch of events or steps, on all units.
#[derive(Clone, Copy, Debug)]
pub struct StretchTally {
    /// How many instructions are executed.
    pub executed: u64,
    /// How many tasks retire.
    pub retired: u64,
    /// How many tasks are squashed.
    pub squashed: u64,
    /// How many tasks are dropped.
    pub dropped: u64,
}

/// The share of a stretch of events or steps that a unit spent on tasks that ended in one way.
#[derive(Clone, Copy, Debug)]
pub struct StretchShare {
    /// The number of the unit round the ring.
    pub unit: u32,
    /// The ending.
    pub ending: Ending,
    /// How many events or steps of the stretch the share has.
    pub count: u64,
    /// The first event or step of the stretch, from 1.
    pub first: u64,
    /// The last event or step of the stretch, from 1.
    pub last: u64,
    /// What happens in the stretch on all units.
    pub tally: StretchTally,
}

/// The unit that has to send a register for which another waits.
#[derive(Clone, Copy, Debug, PartialEq, Eq)]
pub struct Debt {
    /// The register's number, 0 to 33.
    pub register: u8,
    /// The number of the task that has to send it.
    pub task: u32,
    /// The number, round the ring, of that task's unit.
    pub unit: u32,
    /// Whether the register was sent and is on its way.
    pub is_sent: bool,
}

/// Why a unit waits.
#[derive(Clone, Copy, Debug, PartialEq, Eq)]
pub enum Why {
    /// Its next instruction needs a register.
    NeedsRegister(Debt),
    /// Its next instruction is one that the head alone executes.
    NeedsHead,
    /// It has to pass on a register that has not arrived.
    HasToPass(Debt),
    /// It has finished, and is not the head.
    HasFinished,
}

/// Consecutive steps in which a unit waits for one reason.
#[derive(Clone, Copy, Debug, PartialEq, Eq)]
pub struct Wait {
    /// The number of the unit round the ring.
    pub unit: u32,
    /// The number of its task.
    pub task: u32,
    /// The first of the steps, from 1.
    pub step: u32,
    /// How many steps there are.
    pub count: u32,
    /// Why it waits.
    pub why: Why,
}

/// The meaning of a shape. Events and steps are numbered from 1; only those of a life, from 0.
#[derive(Clone, Copy, Debug)]
pub enum Meaning {
    /// Nothing.
    Nothing,
    /// A life; and how the run ended, of the task with which it did. Of any other that is `Running`.
    OfLife(Counted, Life, Standing),
    /// After one event or step and up to another this unit is the head.
    OfHead(Counted, u32, u32, u32),
    /// In the event or step of this number this unit executes an instruction.
    OfExec(Counted, u32, u32),
    /// In the event or step of this number this register travels from one unit to another.
    OfTransfer(Counted, u32, u8, u32, u32),
    /// In the event or step of this number this register is sent by this unit, which has stopped.
    OfDrain(Counted, u32, u8, u32),
    /// In the event or step of this number all after this unit is squashed.
    OfSquash(Counted, u32, u32),
    /// A unit waits.
    OfWait(Wait),
    /// What a unit did in a stretch.
    OfShare(Counted, StretchShare),
}

/// The form of an element, and its place: first the distance from the left, then from the top.
#[derive(Clone, Copy, Debug)]
pub enum Geometry {
    /// A rectangle: its upper left corner, its width and its height.
    Rectangle(u64, u64, u64, u64),
    /// A line from one point to another.
    Line(u64, u64, u64, u64),
    /// A small triangle that points down, from its left upper corner.
    Wedge(u64, u64),
    /// A label: the place of its first letter, its middle or its last letter, as its style says, and its words.
    Label(u64, u64, LabelText),
}

/// An element, which by itself has no meaning: a part of the frame, or a label.
#[derive(Clone, Copy, Debug)]
pub struct Element {
    /// How it looks.
    pub style: Style,
    /// Where it is, and what it says.
    pub form: Geometry,
}

/// An element with its meaning.
#[derive(Clone, Copy, Debug)]
pub struct Shape {
    /// Its look and its place.
    pub element: Element,
    /// The index of its event in those that are drawn; of a shape of no event, a number that no event has.
    pub event: usize,
    /// What it means.
    pub meaning: Meaning,
}
