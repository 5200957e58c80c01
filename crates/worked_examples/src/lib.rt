// Document 01's table 'Proved examples' as one statement about the definitions, further rows, and whole conversations run on them. The
// functions do nothing; their contracts are the statements, so that a check prints their names and fails if one does not hold.
#![tactic(auto)]

ghost use Rattle.worked_examples.specs.Table.{Table};
ghost use Rattle.worked_examples.specs.Further.{FurtherRows};
ghost use Rattle.worked_examples.specs.Conversations.{Conversations};

// Every row of the table.
pub fn proved_examples()
    ensures { Table }
{}

// The number after 65,535; credit and open raised by W; a second allocate; an unfinished record; a forged unit for each of 20 to 29; 13; the rule
// that 21 names; tables in parts; a turn or an end prepared; no confirmation, and its cause; signals; a session opened by its bytes, and sizes.
pub fn further_examples()
    ensures { FurtherRows }
{}

// A bid that crosses the first speaker's data, won and lost; a record over three units; a turn with confirmation.
pub fn whole_conversations()
    ensures { Conversations }
{}
