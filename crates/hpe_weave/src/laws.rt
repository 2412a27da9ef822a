// The law of the channel interleaver and its inverse, as the contract of a function that does nothing.
ghost use Rattle.hpe_weave.specs.Laws.{ChannelInterleaverIsUndone};

/// What `Weaver` makes of symbols and the flush of zeros after them, `Unweaver` turns back into these symbols, and
/// gives fewer values more than a codeword has: the flush is long enough, and no codeword longer than it must be.
pub fn channel_interleaver_is_undone()
    ensures { ChannelInterleaverIsUndone }
{}
