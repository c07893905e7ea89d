//! What all calls of tasks keep, and what may come to a task.
ghost use Rattle.lapi_task.specs.Apart.{TasksStayApart, StandsByPart};
ghost use Rattle.lapi_task.specs.MayReceive.{WiresMayCome};

use lapi_link::what_arrives_may_be_taken;

/// A task that stands for one record stands for every record with the same part at the task. So a line at another task
/// leaves what this one stands for.
pub fn tasks_stay_apart()
    ensures part { StandsByPart }
    ensures others { TasksStayApart }
{}

/// A task may receive each entry of the wire from another task, by each record that it stands for.
pub fn wires_may_come()
    ensures { WiresMayCome }
{
    what_arrives_may_be_taken();
}
