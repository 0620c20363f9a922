ghost use Rattle.peer_streams.specs.Taking.{AnswersAreShown};
ghost use Rattle.peer_streams.specs.Streams.{HonestFramesAreKept, HonestFramesShowNothing, HonestPeersShowNothing, HonestStreamsEnd, HonestStreamsShowNothing};

/// Honest frames give to each slot the payload that is to be sent there, whatever their order and
/// repeats.
pub fn honest_frames_are_kept()
    ensures { HonestFramesAreKept }
{}

/// Honest frames behind a Hello show no cause, however many of them came.
pub fn honest_frames_show_nothing()
    ensures { HonestFramesShowNothing }
{}

/// An honest stream is read to its End, shows no cause, and has all that is to be sent.
pub fn honest_streams_end()
    ensures { HonestStreamsEnd }
{}

/// The first bytes of an honest stream show no cause, wherever it is cut.
pub fn honest_streams_show_nothing()
    ensures { HonestStreamsShowNothing }
{}

/// Where what was taken of some peer shows a cause, the answer is that cause, or want of memory.
pub fn answers_are_shown()
    ensures { AnswersAreShown }
{}

/// Where each peer's bytes are an honest stream, an answer tells of the links alone.
pub fn honest_peers_show_nothing()
    ensures { HonestPeersShowNothing }
{}
