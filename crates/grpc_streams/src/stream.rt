//! A stream on which a call was opened.
use list_types::ByteList;
use p4_types::calls::Method;

/// The whole messages that came on a stream.
#[derive(Drop)]
pub enum Received {
    Nothing,
    One(ByteList),
    More,
}

/// A stream on which a method was asked for, and which was neither answered nor reset.
#[derive(Drop)]
pub struct CallStream {
    pub number: u32,
    pub method: Method,
    /// What came behind the last whole message.
    pub unread: ByteList,
    /// Of another method than the stream channel.
    pub received: Received,
    /// Nothing more is read on it: the peer has ended it, or it is to be refused.
    pub finished: bool,
    /// The headers of its answer were sent.
    pub begun: bool,
}
