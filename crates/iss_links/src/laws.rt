// What a complete packet is made of.
ghost use Rattle.iss_links.specs.Joined.{AllPartsComplete, ArriveAsSent, PacketsAreJoined};
ghost use Rattle.iss_links.specs.Internal.Runs.{TakesAreJoined};

/// A packet that arrives is the first of each of its parts that were taken since the end had none of them, joined in
/// order of their indices. It arrives once all its parts are received. It is the packet that was sent, if all fragments
/// that were taken under its sender, number and count of parts are of that packet; fragments of other packets may come
/// in between.
// rule: Links: A packet that arrives is joined of frames that its end took, of each part the first
pub fn packets_are_joined()
    ensures takes { TakesAreJoined }
    ensures joined { PacketsAreJoined }
    ensures complete { AllPartsComplete }
    ensures sent { ArriveAsSent }
{}
