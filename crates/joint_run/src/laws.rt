ghost use Rattle.joint_run.specs.Laws.{APartyFollows, EveryGateRecombines, EveryWireRecombines, OneJointRun, PayloadsHaveTheirLengths, PayloadsHaveTheirShapes, PayloadsReadBack, SharesAreLawful};
ghost use Rattle.joint_run.specs.Uses.{UsesNeverMeet};

/// What is read at each place of a payload is what was written there.
pub fn payloads_read_back()
    ensures { PayloadsReadBack }
{}

/// There is exactly one joint run for each plan and each list of own data, one for each party.
pub fn one_joint_run()
    ensures { OneJointRun }
{}

/// In a joint run each payload has the length that the plan states for it, and where the plan states no message there is
/// none.
pub fn payloads_have_their_lengths()
    ensures { PayloadsHaveTheirLengths }
{}

/// Where the plan states a message, no vector of its payload in a joint run has a bit at or above its width, whatever
/// the dealer's parts.
pub fn payloads_have_their_shapes()
    ensures { PayloadsHaveTheirShapes }
{}

/// In a joint run with honest dealer's parts, the parties' values of each gate recombine to the number that the plan
/// computes there in plain.
pub fn every_gate_recombines()
    ensures { EveryGateRecombines }
{}

/// And each wire that is shared as keys recombines, at each party, to the number that the plan computes of it in plain: its
/// zero keys are even, the masked bits and the active keys are those of the number, and the shares of mask times offsets
/// are those of the mask.
pub fn every_wire_recombines()
    ensures { EveryWireRecombines }
{}

/// Where each party enters its own shares of a value, these are lawful parts: with honest dealer's parts they recombine to the
/// number that the plan computes there in plain.
pub fn shares_are_lawful()
    ensures { SharesAreLawful }
{}

/// A party that was sent what a joint run sends it, and nothing else, has the run's values and sends the run's payloads.
pub fn a_party_follows()
    ensures { APartyFollows }
{}

/// Two different uses of a party's tape read no place both: the share words of other sessions, gates or receivers stand
/// elsewhere.
pub fn tape_uses_never_meet()
    ensures { UsesNeverMeet }
{}
