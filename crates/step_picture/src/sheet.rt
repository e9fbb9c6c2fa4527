//! The parts of the file that pictures of steps alone have.

/// Why units wait.
pub(crate) const WAITS_LEGEND: &str =
    "<rect class='wait needs' x='88' y='122' width='28' height='13'/><text x='124' y='133'>waits for a register</text>
<rect class='wait turn' x='316' y='122' width='28' height='13'/><text x='352' y='133'>waits to be the head</text>
<rect class='wait pass' x='564' y='122' width='28' height='13'/><text x='600' y='133'>has to pass a register on</text>
";

/// What an arrow between units is.
pub(crate) const ARROW_LEGEND: &str =
    "<path class='transfer' d='M802 120V137'/><text x='814' y='133'>register arrives; at unit 0, from the last unit</text>
";

/// That more steps than have room for marks have none.
pub(crate) const NO_MARKS_LEGEND: &str =
    "<text class='quiet' x='802' y='133'>over 300 steps, no instructions or registers are drawn</text>
";

/// What else is in a picture of stretches.
pub(crate) const SUMMED_LEGEND: &str =
    "<rect class='unfinished' x='430' y='94' width='28' height='16'/><text x='466' y='107'>unfinished, or halted</text>
<rect class='idle' x='630' y='94' width='28' height='16'/><text x='666' y='107'>no task</text>
<text class='quiet' x='88' y='133'>over 2,000 steps, no waits, instructions, registers or squashes are drawn: --from and --to draw a part</text>
";
