// What is proved of the calls on an image as a whole. The function does nothing; its contract is the claim, so that a check
// prints its name and fails if a proof goes.
ghost use Rattle.lu62.specs.Untouched.{RefusedChangesNothing};

// A call that is refused leaves the image and every lent cell but the answer's as they were.
pub fn refused_changes_nothing()
    ensures { RefusedChangesNothing }
{}
