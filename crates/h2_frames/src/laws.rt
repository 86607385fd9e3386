//! Laws of frames, each the contract of a function that does nothing.
ghost use Rattle.h2_frames.specs.Laws.{ReadBack, WorkedFrames};
ghost use Rattle.h2_frames.specs.Sequence.{FramesJoined, LaterFrames};

/// What is written is read back.
pub fn read_back()
    ensures { ReadBack }
{}

/// Some frames and their bytes, computed from the definitions alone.
pub fn worked_frames()
    ensures { WorkedFrames }
{}

/// Bytes are their whole frames, one after another, and a rest that is none.
pub fn frames_joined()
    ensures { FramesJoined }
{}

/// Bytes that come later change no frame that is whole.
pub fn later_frames()
    ensures { LaterFrames }
{}
