// What is proved of headers as a whole. The functions do nothing; their contracts are the claims, so that a check prints their names and
// fails if a proof goes.
ghost use Rattle.header.specs.HeaderClaims.{BuiltIsRead, ReadIsBuilt, OnlyH1, LowestNamed, FiftyOne};
ghost use Rattle.header.specs.ManualOrder.{SameAnswers, LaterBits};
ghost use Rattle.header.specs.ExpeditedClaims.{ExpeditedBuiltIsRead, ExpeditedReadIsBuilt, ExpeditedRuleBroken};
ghost use Rattle.header.specs.ExpeditedClaims.{ExpeditedTwo, ExpeditedSameAnswers, ByTheLine};

pub fn headers()
    ensures built_is_read { BuiltIsRead }
    ensures read_is_built { ReadIsBuilt }
    ensures only_h1 { OnlyH1 }
    ensures lowest_named { LowestNamed }
    ensures fifty_one { FiftyOne }
{}

pub fn manual_order()
    ensures same_answers { SameAnswers }
    ensures later_bits { LaterBits }
{}

// The same of the headers on the expedited lines, and how the answer goes by the line.
pub fn expedited_headers()
    ensures built_is_read { ExpeditedBuiltIsRead }
    ensures read_is_built { ExpeditedReadIsBuilt }
    ensures rule_broken { ExpeditedRuleBroken }
    ensures two { ExpeditedTwo }
    ensures same_answers { ExpeditedSameAnswers }
    ensures by_the_line { ByTheLine }
{}
