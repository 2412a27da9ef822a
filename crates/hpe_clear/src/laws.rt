// The law of the clear channel, as the contract of a function that does nothing.
ghost use Rattle.hpe_clear.specs.Laws.{ClearChannelIsDecoded};

/// Under every valid profile, whole frames whose slots come as they were sent, after dark slots for less than a period,
/// come back: the search finds the dark lead-in as the offset, each word is kept in the first round, no word is lost,
/// and the frames that are delivered are those that were sent. Where there is no frame there is no period, and the
/// stream is found to be short.
pub fn clear_channel_is_decoded()
    ensures { ClearChannelIsDecoded }
{}
