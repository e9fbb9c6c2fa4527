//! Laws: each function does nothing, and its contract is a theorem about the definitions alone.

ghost use Rattle.std.specs.Prelude.{◌≡◌, ℕ, List, Ok};
ghost use Rattle.std.specs.List.{All};
ghost use Rattle.std.specs.Result.{result_err};
ghost use Rattle.task_descriptor.specs.Listing.{Listing};
ghost use Rattle.machine_model.specs.declared.event.Event.{Event};
ghost use Rattle.event_script.specs.EventScript.{script_of, bad_lines, first_bad};
ghost use Rattle.event_script.specs.ScriptText.{IsTold, NamesRegister, script_text};

use task_descriptor::program::Program;

/// Law: the script that is written for events which it can express is read as these events. The call does
/// nothing but look at the program; its contract is the theorem.
pub fn written_is_read(program: &Program)
    ensures { (events : List Event) → All (λ e. IsTold program.now e × NamesRegister e) events
        → script_of program.now (script_text program.now events) ≡ Ok events }
{
    let _ = program.tasks();
}

/// Law: a script with lines that spell no event is refused for the first of them; one without such a line is
/// read.
pub fn refused_for_the_first()
    ensures { (p : Listing) (text : List ℕ) → first_bad (bad_lines p text) ≡ result_err (script_of p text) }
{}
