// What is proved of units as a whole. The function does nothing; its contract is the claim, so that a check prints its name and
// fails if a proof goes.
ghost use Rattle.unit.specs.UnitClaims.{WrittenIsRead, ExpeditedWrittenIsRead};

pub fn units()
    ensures written { WrittenIsRead }
    ensures expedited { ExpeditedWrittenIsRead }
{}
