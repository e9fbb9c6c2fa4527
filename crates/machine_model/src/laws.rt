//! The theorems about the model. Each is the contract of a function that does nothing; to use one,
//! call its function.

ghost use Rattle.machine_model.specs.Laws.{Headline, HowARunEnds, ReplayCut, AnswerIsNext, NextIsAfter, ReplayIsReplays, NeverStuck, EndedHasNone, EventsGrow, EventsCount, BurstsAreEvents, PlacesAreValid, PlacesBeginValid, PlacesStayValid, SentRegistersStay};

/// Law: after every list of events that a sound program's machine allows, whatever the number of units, with
/// wrong predictions, squashes, drops and repeated assignments of tasks among them: what the retired tasks read
/// is what the plain machine's first c instructions read, and these are c; each retired exit is listed; output
/// and memory are the plain machine's after h instructions, and so is each register of the head.
pub fn headline()
    ensures { Headline }
{}

/// Law: for a sound program the run is Halted or Trapped only where the plain machine is so after h
/// instructions. It is Unlisted at an address only where the plain machine, still running, is about to fetch
/// there, and the head's task does not list it. While the run continues, so does the plain machine.
pub fn how_a_run_ends()
    ensures { HowARunEnds }
{}

/// Law: the state after a list of events does not depend on where the list is cut in two.
pub fn replays_join()
    ensures { ReplayCut }
{}

/// Law: for a well-formed program the answer to an event is Ok exactly where the machine step allows it and the
/// history has room.
pub fn answer_is_next()
    ensures { AnswerIsNext }
{}

/// Law: an event that is allowed leaves one state, the one that `after` computes.
pub fn next_is_after()
    ensures { NextIsAfter }
{}

/// Law: for a well-formed program the replay as a function and the replay as a relation are one.
pub fn replay_is_replays()
    ensures { ReplayIsReplays }
{}

/// Law: with one unit or more, while the run of a sound program continues there is a head event, and the
/// machine step allows it.
pub fn never_stuck()
    ensures { NeverStuck }
{}

/// Law: once the run has ended there is no head event.
pub fn ended_has_none()
    ensures { EndedHasNone }
{}

/// Law: an instruction of the head lets h, the instructions of the retired tasks and the head, grow by one, a
/// Retire by what the next unit has executed ahead, any other event not at all.
pub fn events_grow()
    ensures { EventsGrow }
{}

/// Law: how many tasks have retired and how many units are active after an event follows from the event and
/// these numbers before it.
pub fn events_count()
    ensures { EventsCount }
{}

/// Law: a burst that was made on a unit, handed in where that unit is unchanged but for more arrived registers,
/// is a list of Exec events.
pub fn bursts_are_events()
    ensures { BurstsAreEvents }
{}

/// Law: a unit's place is valid in every state that a list of events leaves, on a wrong path too: it has
/// stopped, or is before an instruction that its task reaches from its entry along inner edges.
pub fn places_are_valid()
    ensures { PlacesAreValid }
{}

/// Law: the place where a unit begins is valid.
pub fn places_begin_valid()
    ensures { PlacesBeginValid }
{}

/// Law: a unit's place stays valid over each Exec, whatever its operands are.
pub fn places_stay_valid()
    ensures { PlacesStayValid }
{}

/// Law: where the masks fit the place's instruction and no register that a unit sent is in the mask of its
/// place, this holds after each Exec too, and each such register keeps its value.
pub fn sent_registers_stay()
    ensures { SentRegistersStay }
{}
