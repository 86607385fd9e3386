//! Laws of messages, each the contract of a function that does nothing.
ghost use Rattle.grpc_streams.specs.Laws.{AnyCut};

/// Cutting the data of a stream in two changes neither its messages nor what is refused.
pub fn any_cut()
    ensures { AnyCut }
{}
