//! What is proved of the game.
ghost use Rattle.run_example.specs.GameLaws.{PongsAnswerPings, GameLogsRun};
ghost use Rattle.run_example.specs.Sample.{SampleRuns, SampleLosesPong, TornIsOpen};

use crate::game::{Signal, Step};
use run_theory::right_logs_are_a_run;

/// Right logs of the game, merged, are a run: the law of every machine, at this one.
pub fn game_logs_are_a_run()
    ensures { GameLogsRun }
{
    right_logs_are_a_run::<Step, Signal>();
}

/// In each closed cut a pong was taken only where its sender has the ping, and a ping only where it was served.
pub fn pongs_answer_pings()
    ensures { PongsAnswerPings }
{}

/// The machine has runs, as one with a stop, a lost signal and a host that is made later, and not every cut of their
/// logs is closed.
pub fn game_has_runs()
    ensures run { SampleRuns }
    ensures loses { SampleLosesPong }
    ensures torn { TornIsOpen }
{}
