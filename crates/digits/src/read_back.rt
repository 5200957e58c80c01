// What is proved of digits as a whole. The function does nothing; its contract is the law, so that a check prints its name and
// fails if a proof goes.
ghost use Rattle.digits.specs.ReadBack.{NumberReadBack, BytesReadBack};

pub fn printed_is_read_back()
    ensures number { NumberReadBack }
    ensures bytes { BytesReadBack }
{}
