// The claim about two joined ends put to use: said once more in other words, and read off one conversation; the laws of Defer, of an
// error that is due and of signals too. The functions do nothing but call those that carry the claim and the laws; their contracts
// follow from the contracts of these.
#![tactic(auto)]

ghost use Rattle.claim_in_use.specs.Conversation.{OneConversation};
ghost use Rattle.claim_in_use.specs.Deferral.{OneDeferral};
ghost use Rattle.claim_in_use.specs.Denial.{OneDenial};
ghost use Rattle.claim_in_use.specs.OtherWords.{InOtherWords};
ghost use Rattle.claim_in_use.specs.Signal.{OneSignal};

use calls::{deferring, denying, signalling};
use joined::{always_good, denials, joined_ends, signals, the_records};
use logical_record::theorems::record_places;

// The claim in other words, of every two sessions and every list of calls.
pub fn in_other_words()
    ensures { InOtherWords }
{
    joined_ends();
    the_records();
    always_good();
    denials();
    signals();
    record_places();
}

// The claim of one conversation and of one other order of its calls, in bytes and numbers.
pub fn one_conversation()
    ensures { OneConversation }
{
    joined_ends();
    the_records();
    always_good();
    signals();
    record_places();
}

// The claim and the laws of Defer, of the same conversation while a turn is prepared.
pub fn one_deferral()
    ensures { OneDeferral }
{
    joined_ends();
    the_records();
    deferring();
}

// The claims and the laws of an error that is due, of the same conversation where a confirmation is refused.
pub fn one_denial()
    ensures { OneDenial }
{
    joined_ends();
    the_records();
    denials();
    denying();
}

// The claims and the laws of signals, of the same conversation where its bidder asks for the turn.
pub fn one_signal()
    ensures { OneSignal }
{
    joined_ends();
    signals();
    signalling();
    deferring();
}
