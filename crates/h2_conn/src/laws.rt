//! Laws of a connection, each the contract of a function that does nothing.
ghost use Rattle.h2_conn.specs.Bytes.{AnyCut};
ghost use Rattle.h2_conn.specs.Bounds.{AlwaysBounded, OutputBounded};
ghost use Rattle.h2_conn.specs.History.{AnyPieces, WholeFrame, WholeFrames};

/// Cutting bytes in two changes nothing.
pub fn any_cut()
    ensures { AnyCut }
{}

/// How bytes between two sends are cut changes nothing, whatever happened before and happens after.
pub fn any_pieces()
    ensures { AnyPieces }
{}

/// The bytes of a whole frame do what the frame does.
pub fn whole_frame()
    ensures { WholeFrame }
{}

/// The bytes of whole frames do what the frames do one after another, and what is behind them comes after.
pub fn whole_frames()
    ensures { WholeFrames }
{}

/// What a connection keeps has limits, whatever happens to it. What waits for the peer's windows grows
/// only by what it is given to send, never by what its peer sends.
pub fn always_bounded()
    ensures { AlwaysBounded }
{}

/// The bytes that are to be sent have limits too, from any point of a connection on. Where the output
/// was taken they are at most twelve times what waited then, in bytes and messages, and 17 for GOAWAY;
/// thrice the bytes that came since, and those of a frame that was not whole; and twelve times what it
/// was given to send since.
pub fn output_bounded()
    ensures { OutputBounded }
{}
