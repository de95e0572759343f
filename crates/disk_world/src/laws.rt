//! What is true of what disks keep of steps, whatever comes.
ghost use Rattle.disk_world.specs.Laws.{CheckpointsAreOfTheirSteps, RowsStepWithTheirSaver};

/// A law, which does nothing: what a disk has to do of a local checkpoint is what the saver of the rows came
/// to in that very step; where the rows didn't take the signal it is nothing.
pub fn checkpoints_are_of_their_steps()
    ensures { CheckpointsAreOfTheirSteps }
{}

/// A law, which does nothing: in each step of a host with rows these and their saver take nothing, as where it
/// stops the host, or the signal, and there is to be done what the saver came to.
pub fn rows_step_with_their_saver()
    ensures { RowsStepWithTheirSaver }
{}
