//! Laws of texts.
ghost use Rattle.fcp_reader.specs.Laws.{OneModule, OneGoal, OneFault, FaultIsNoModule, FaultIsNoGoal, TextsKeepLimits};

/// A text is at most one module.
pub fn one_module()
    ensures { OneModule }
{}

/// A text is at most one goal.
pub fn one_goal()
    ensures { OneGoal }
{}

/// A text has at most one first fault as a module, and at most one as a goal.
pub fn one_fault()
    ensures { OneFault }
{}

/// A text that is a module has no fault as one.
pub fn fault_is_no_module()
    ensures { FaultIsNoModule }
{}

/// A text that is a goal has no fault as one.
pub fn fault_is_no_goal()
    ensures { FaultIsNoGoal }
{}

/// A module or a goal that a text is keeps the limits of arguments, parts, variables and items. Each clause and each goal has
/// at most `MOST_VARIABLES` variables, and each occurrence of a variable has the number of one of them. Each head and each
/// call has at most `MOST_ARGUMENTS` arguments, each tuple at most one part more, and each guard, each body and each goal at
/// most `MOST_ITEMS` items. A module has at most as many clauses as its text has bytes.
pub fn texts_keep_limits()
    ensures { TextsKeepLimits }
{}
