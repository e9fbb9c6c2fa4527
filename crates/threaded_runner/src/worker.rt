//! A worker's thread.

ghost use Rattle.std.specs.Prelude.{◌≤◌, length};

use crate::deeds::Deeds;
use crate::desk::Desk;
use crate::gate::RunGate;
use crate::held::Ended;
use crate::hold::Worker;
use crate::naming::Naming;
use crate::patience::Patience;
use crate::serving::serve_rounds;
use crate::station::{Station, Watch};
use sequencer::predict::Predict;
use std::sync::{Mutex, Wait};
use unit_turns::bell::Bell;

/// Serves a worker's units until the run is over, by the worker's own bell.
pub(crate) fn serve<'t, 'a, P: Predict, J: Naming + Deeds, G: RunGate, R: Wait>(
    rt: &'t R,
    shared: &'t Mutex<Desk<'a, P, J>>,
    bells: &'t [Bell],
    bell: &'t Bell,
    gate: &'t G,
    patience: Patience,
    worker: Worker<J>,
) -> Ended
    requires { J.workers ≤ length bells.now }
{
    let (station, away) = Station::new(rt, shared, bells, bell, patience, worker);
    let mut station = station;
    let mut watch = Watch { gate };
    serve_rounds::<Station<'t, 'a, P, J, R>, Watch<'t, G>, R>(rt, &mut station, &mut watch, away)
}
