// The calls of an end as one function each of the end and the cells lent to it, and the laws that hold of each call by itself, at any
// record, cells and unit, forged ones too. The functions do nothing; their contracts are the laws, so that a check prints their names
// and fails if a proof goes.
#![tactic(auto)]

ghost use Rattle.calls.specs.Laws.{Refusals, StaysGood, CreditExact, UnitsFit};
ghost use Rattle.calls.specs.DeferLaws.{Deferring};
ghost use Rattle.calls.specs.ErrorLaws.{Denying};
ghost use Rattle.calls.specs.ExpeditedLaws.{Signalling};

// A refused call gives the first number that fits and changes nothing.
pub fn refused_calls()
    ensures { Refusals }
{}

// An accepted call's record was within its section, and so is the one that it leaves.
pub fn stays_good()
    ensures { StaysGood }
{}

// What a request costs and a pacing response gives, exactly.
pub fn credit_exact()
    ensures { CreditExact }
{}

// A unit made stands within the unit buffer, and is no longer than the longest RU allows.
pub fn units_fit()
    ensures { UnitsFit }
{}

// A turn or an end that is prepared: withdrawn, every field is as it was; carried out, it is the call of that name. And what a
// deferring end may do.
pub fn deferring()
    ensures { Deferring }
{}

// No confirmation, and then its cause: what send error leaves, what flush makes while the error is due, and what has to wait for it.
pub fn denying()
    ensures { Denying }
{}

// Signals: what a request to send and a take on the expedited line leave, and that these lines are apart from all else of an end.
pub fn signalling()
    ensures { Signalling }
{}
