//! Which sheets are accepted: the judge of a sheet as a definition, and the laws of sheets and plans.
#![tactic(auto)]

ghost use Rattle.verdict.specs.Theorems.{AcceptedIsPlan, AcceptedAgain, AcceptedBest, SheetsOfBest, PlanIsRun, SheetsAreShort};

pub mod fault;

/// The accepted sheets are exactly the sheets of plans.
pub fn accepted_is_plan()
    ensures { AcceptedIsPlan }
{}

/// An accepted sheet, written out again, is the same bytes.
pub fn accepted_again()
    ensures { AcceptedAgain }
{}

/// Only a best family is accepted.
pub fn accepted_best()
    ensures { AcceptedBest }
{}

/// With tolls that support some family, the sheet of a family is accepted exactly when the family is best.
pub fn sheets_of_best()
    ensures { SheetsOfBest }
{}

/// The records of a plan's sheet are in turn, from the head to the end.
pub fn plan_is_run()
    ensures { PlanIsRun }
{}

/// The longest sheet of a plan has 32,844 bytes.
pub fn sheets_are_short()
    ensures { SheetsAreShort }
{}
