// The plain book of texts, and what it holds after any calls: each function stands for the theorem in its contract.
#![tactic(auto)]

ghost use Rattle.book.specs.Agree.{EachCallAgrees, EachRunAgrees};
ghost use Rattle.book.specs.History.{AfterAnyCalls, OneMoreCall};

pub fn after_any_calls()
    ensures { AfterAnyCalls }
{}

pub fn one_more_call()
    ensures { OneMoreCall }
{}

pub fn each_call_agrees()
    ensures { EachCallAgrees }
{}

pub fn each_run_agrees()
    ensures { EachRunAgrees }
{}
