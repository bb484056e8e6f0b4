//! Laws of what programs mean, over memory and with a limit of steps. Each function states its law and does nothing.

ghost use Rattle.core_programs.specs.Laws.{LargerBoundsAgree, LimitsComeFirst, MoreStepsAgree, RunsHaveOneAnswer, ConstValuesHold, CallsLeaveCells};
ghost use Rattle.core_programs.specs.Typing.{ValuesAreProper, ValuesHaveTheirTypes, ResultsHaveTheirTypes, StartedValuesAreProper, RunsHaveTheirTypes};

/// A larger bound changes nothing of a run that is over: the same answer or fault, the same cells, as many steps left.
pub fn larger_bounds_agree()
    ensures { LargerBoundsAgree }
{}

/// A bound above the steps that are allowed is never passed: the run ends with an answer or a fault, the limit of steps among them.
pub fn limits_come_first()
    ensures { LimitsComeFirst }
{}

/// A run that ends well within some number of steps ends well, with the same answer, within any larger one.
pub fn more_steps_agree()
    ensures { MoreStepsAgree }
{}

/// Two runs of the same program, function and handed values that both end well have the same answer, within whatever numbers of steps.
pub fn runs_have_one_answer()
    ensures { RunsHaveOneAnswer }
{}

/// Where the const stage gives a value, each stage gives the same one in as many steps.
pub fn const_values_hold()
    ensures { ConstValuesHold }
{}

/// A call of a function leaves the cells of memory as they were.
pub fn calls_leave_cells()
    ensures { CallsLeaveCells }
{}

/// Where known values and locals are well formed, and neither references nor pointers, each value of an expression is so.
pub fn values_are_proper()
    ensures { ValuesAreProper }
{}

/// A value has the type that typing finds of the expression, at every stage, also where the typing knows of locals no more than their types.
pub fn values_have_their_types()
    ensures { ValuesHaveTheirTypes }
{}

/// What a call hands back has the type that the function's declaration writes; without one nothing is handed back.
pub fn results_have_their_types()
    ensures { ResultsHaveTheirTypes }
{}

/// The values that the start of a program makes known are well formed, and neither references nor pointers.
pub fn started_values_are_proper()
    ensures { StartedValuesAreProper }
{}

/// Where the values that are handed in are well formed, what a run answers has the type that its entry point's declaration writes.
pub fn runs_have_their_types()
    ensures { RunsHaveTheirTypes }
{}
