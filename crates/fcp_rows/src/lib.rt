//! Worked examples of the runs of Flat Concurrent Prolog: small programs, and the report of each by the definitions, or for the longest its log.
#![tactic(auto)]

ghost use Rattle.fcp_rows.specs.Commits.{a_fact_binds_the_goal, a_commit_wakes_the_waiting, a_failed_process_ends_the_run, a_later_pair_sees_the_binding, a_process_is_woken_once};
ghost use Rattle.fcp_rows.specs.Suspensions.{a_read_only_place_is_not_bound, the_first_waiting_pair_decides, a_read_only_head_waits_for_nothing, a_waiting_set_has_every_place_read};
ghost use Rattle.fcp_rows.specs.Guards.{otherwise_waits_after_a_waiting_clause, unknown_holds_before_the_binding, unknown_fails_after_the_binding, a_comparison_fails, a_comparison_waits_for_its_operand};
ghost use Rattle.fcp_rows.specs.Unifications.{the_occurs_check_fails, the_younger_variable_is_bound, the_writable_variable_is_bound, two_read_only_variables_wait, a_variable_is_itself};
ghost use Rattle.fcp_rows.specs.Limits.{a_run_ends_at_its_commits, no_commit_is_no_entry, no_move_is_no_entry, a_run_ends_at_its_cells, a_smaller_entry_still_fits, a_hang_lacks_its_cells};
ghost use Rattle.fcp_rows.specs.Controls.{a_snapshot_is_of_its_moment, a_late_control_is_not_reached, an_abort_comes_before_the_first_move, a_resumed_run_goes_on, a_fail_comes_before_a_due_control};
ghost use Rattle.fcp_rows.specs.Snapshots.{a_suspended_run_has_a_snapshot, a_process_waits_for_no_place, an_expression_has_its_parentheses};
ghost use Rattle.fcp_rows.specs.Values.{a_tuple_is_a_call_by_its_first_value, a_string_is_quoted, a_list_is_cut};
ghost use Rattle.fcp_rows.specs.Growing.{two_streams_are_merged_and_summed};

/// Commits: what they bind, what sees it, and whom they wake.
pub fn commits()
    ensures fact { a_fact_binds_the_goal }
    ensures wakes { a_commit_wakes_the_waiting }
    ensures fails { a_failed_process_ends_the_run }
    ensures sees { a_later_pair_sees_the_binding }
    ensures once { a_process_is_woken_once }
{}

/// Suspensions: what a process waits for.
pub fn suspensions()
    ensures read_only { a_read_only_place_is_not_bound }
    ensures first { the_first_waiting_pair_decides }
    ensures head { a_read_only_head_waits_for_nothing }
    ensures all_reads { a_waiting_set_has_every_place_read }
{}

/// Guards: tests that hold, fail and wait.
pub fn guards()
    ensures otherwise { otherwise_waits_after_a_waiting_clause }
    ensures unknown { unknown_holds_before_the_binding }
    ensures known { unknown_fails_after_the_binding }
    ensures fails { a_comparison_fails }
    ensures waits { a_comparison_waits_for_its_operand }
{}

/// Unifications: of two variables, and of a variable with a term in which it occurs.
pub fn unifications()
    ensures occurs { the_occurs_check_fails }
    ensures younger { the_younger_variable_is_bound }
    ensures writable { the_writable_variable_is_bound }
    ensures read_only { two_read_only_variables_wait }
    ensures itself { a_variable_is_itself }
{}

/// Limits: runs that end at their commits, their moves or their cells.
pub fn limits()
    ensures commits { a_run_ends_at_its_commits }
    ensures no_commit { no_commit_is_no_entry }
    ensures no_move { no_move_is_no_entry }
    ensures cells { a_run_ends_at_its_cells }
    ensures smaller { a_smaller_entry_still_fits }
    ensures hang { a_hang_lacks_its_cells }
{}

/// Controls: what is made when its time comes, and what is not reached.
pub fn controls()
    ensures snapshot { a_snapshot_is_of_its_moment }
    ensures late { a_late_control_is_not_reached }
    ensures abort { an_abort_comes_before_the_first_move }
    ensures resume { a_resumed_run_goes_on }
    ensures fail { a_fail_comes_before_a_due_control }
{}

/// Snapshots: of a suspended run, and of processes that wait.
pub fn snapshots()
    ensures suspended { a_suspended_run_has_a_snapshot }
    ensures no_place { a_process_waits_for_no_place }
    ensures expression { an_expression_has_its_parentheses }
{}

/// Values: how they are written.
pub fn values()
    ensures call { a_tuple_is_a_call_by_its_first_value }
    ensures quoted { a_string_is_quoted }
    ensures cuts { a_list_is_cut }
{}

/// A program that grows two streams, merges them and sums the result.
pub fn growing()
    ensures { two_streams_are_merged_and_summed }
{}
