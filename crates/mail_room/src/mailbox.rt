//! What waits for one controller, and whether a notice found no room there.
ghost use Rattle.std.specs.Prelude.{◌≡◌, IfOk, IfSome};
ghost use Rattle.mail_room.specs.Boxes.{IsMail, empty_box, after_packet, after_notice, next_of, after_next};

use crate::next::Next;
use crate::outbox::Outbox;
use list_types::NoMemory;
use p4_types::messages::StreamMessageResponse;
use std::alloc::Global;
use std::marker::Model;

/// A message that waits. A notice bears what its call has told.
#[derive(Drop)]
pub struct Waiting<T> {
    pub message: StreamMessageResponse,
    pub told: Option<T>,
}

/// What waits for one controller. Once a notice finds no room nothing is put behind what waits, until `next` has said so.
#[derive(Drop)]
pub struct Mailbox<T: Drop> {
    waiting: Outbox<Waiting<T>>,
    refused: bool,
}

impl<T: Drop> Model for Mailbox<T> {
    ghost use Rattle.mail_room.specs.Boxes.{BoxState};

    ghost Value = { BoxState T };

    ghost view = { λ b. record { waiting = b.waiting; refused = b.refused } };
}

impl<T: Drop> Mailbox<T> {
    /// Nothing waits. No other call takes memory.
    pub fn open(alloc: Global) -> Result<Mailbox<T>, NoMemory>
        ensures { IfOk result (λ b. b ≡ empty_box) }
    {
        let waiting = Outbox::open(alloc)?;
        Ok(Mailbox {
            waiting,
            refused: false,
        })
    }

    /// Puts a packet or a digest list behind what waits, or drops it: where `PACKET_LIMIT` messages or more wait, or a notice found no room.
    pub fn put_packet(&mut self, message: StreamMessageResponse)
        ensures { self.new ≡ after_packet self.old message }
    {
        if self.refused {
            return;
        }
        let _ = self.waiting.put_packet(Waiting {
            message,
            told: None,
        });
    }

    /// Puts a notice behind what waits, or drops it: where `NOTICE_LIMIT` messages wait, or an earlier notice found no room.
    pub fn put_notice(&mut self, message: StreamMessageResponse, told: T)
        ensures { self.new ≡ after_notice self.old message told }
    {
        if self.refused {
            return;
        }
        let notice = Waiting {
            message,
            told: Some(told),
        };
        self.refused = self.waiting.put_notice(notice).is_err();
    }

    /// Takes the message that waits longest; where none waits, says once that a notice found no room.
    pub fn next(&mut self) -> Option<(Next, Option<T>)>
        ensures next { result ≡ next_of self.old }
        ensures mail { IfSome result (λ given. IsMail given.0) }
        ensures rest { self.new ≡ after_next self.old }
    {
        if let Some(Waiting { message, told }) = self.waiting.next() {
            return Some((Next::Message(message), told));
        }
        if !self.refused {
            return None;
        }
        self.refused = false;
        Some((Next::Overflow, None))
    }

    /// Drops what waits, and forgets that a notice found no room.
    pub fn clear(&mut self)
        ensures { self.new ≡ empty_box }
    {
        self.waiting.clear();
        self.refused = false;
    }
}
