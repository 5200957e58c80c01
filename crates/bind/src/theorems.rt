// What is proved of the bytes of a session as a whole. The function does nothing; its contract is the claims, so that a check prints its
// name and fails if a proof goes.
ghost use Rattle.bind.specs.BindClaims.{BothWays, ByteGivenBack, SizeGivenBack, NoneMeans, FiftySeven};

pub fn size_bytes()
    ensures both_ways { BothWays }
    ensures byte_given_back { ByteGivenBack }
    ensures size_given_back { SizeGivenBack }
    ensures none_means { NoneMeans }
    ensures fifty_seven { FiftySeven }
{}
