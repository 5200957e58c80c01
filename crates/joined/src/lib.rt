// Two joined ends. The definitions are in specs/: the two ends, the lines between them, the list of calls, and what is claimed after
// every list. The functions do nothing; their contracts are the claims, so that a check prints their names and fails if a proof goes.
#![tactic(auto)]

ghost use Rattle.joined.specs.Claim.{Claim, TheRecords, AlwaysGood};
ghost use Rattle.joined.specs.Denials.{TheDenials};
ghost use Rattle.joined.specs.Signals.{TheSignals};

// Demand 3, after every list of calls at two joined, freshly opened ends: never both in Send, no take refused as a breach on either lane,
// bytes conserved in order, the credit count, and the same outcome whatever the order between the ends.
pub fn joined_ends()
    ensures { Claim }
{}

// The records read at one end are the first of those given at the other, byte for byte, and reads are cut at record ends.
pub fn the_records()
    ensures { TheRecords }
{}

// Question 5 is answered yes at every call of two opened ends, so that none is refused with 5.
pub fn always_good()
    ensures { AlwaysGood }
{}

// No confirmation, with a cause: the units made at one end are those taken at the other and those on the line, in order, and the
// error header is among them exactly where a negative confirmation announces it.
pub fn denials()
    ensures { TheDenials }
{}

// Signals: those made at one end are those told at the other and those on the line to it; and one is unanswered exactly while it or its
// response is on a line.
pub fn signals()
    ensures { TheSignals }
{}
