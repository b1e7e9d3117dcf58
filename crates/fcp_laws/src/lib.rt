//! Laws of the definitions of Flat Concurrent Prolog's runs. Each function does nothing: its contract is the law.
#![tactic(auto)]

ghost use Rattle.fcp_laws.specs.Laws.{AGoalHasOneDecision, ALogHasOneHistory, OneWorkerMakesOneRun, AStartIsOrdered, SchedulesAreSound, AnEmptyQueueLeavesNoneReady, OneWorkerRunsAreRuns, OneWorkerRunsEnd, ARunHasOneReport, OneWorkerReportsAreRunReports};

/// One decision is made for a goal over a map.
pub fn decisions()
    ensures { AGoalHasOneDecision }
{}

/// A log has one list of events, and one worker makes one run.
pub fn determined_runs()
    ensures history { ALogHasOneHistory }
    ensures worker { OneWorkerMakesOneRun }
{}

/// In each schedule to which a run of one worker comes, the queue holds the Ready processes of the state.
pub fn sound_schedules()
    ensures start { AStartIsOrdered }
    ensures schedules { SchedulesAreSound }
    ensures none_ready { AnEmptyQueueLeavesNoneReady }
{}

/// The run of one worker is a run within its limits in which its controls are kept, and it ends with the outcome that is
/// read off its last schedule.
pub fn one_worker_runs()
    ensures lawful { OneWorkerRunsAreRuns }
    ensures outcome { OneWorkerRunsEnd }
{}

/// At most one report is made from a state under limits and controls, whatever number of steps it is computed in, and it is
/// the report of a lawful run.
pub fn reports()
    ensures one { ARunHasOneReport }
    ensures lawful { OneWorkerReportsAreRunReports }
{}
