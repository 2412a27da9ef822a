// Laws of the frame scan, each as the contract of a function that does nothing.
ghost use Rattle.hpe_frame.specs.Laws.{GivenFramesAreDelivered};

/// Where some blocks of the bit stream of frames are missing, and each block with a bit of the first frame or its marker
/// is given, the frames that are delivered are those all of whose blocks are given, in order.
///
/// Nothing is said where the first frame is touched: a search over the octets of a frame may meet the marker there.
pub fn frames_of_known_blocks_are_delivered()
    ensures { GivenFramesAreDelivered }
{}
