//! What devices send to other boards, and what a board notes for the log.
use crate::frame::Frame;
use crate::payload::Payload;
use lab_num::{Key, Member};

/// A payload on its way from one device to others, with the key that orders it.
#[derive(Clone, Copy, PartialEq, Eq)]
pub struct Post {
    pub key: Key,
    pub from: Member,
    pub payload: Payload,
}

/// What a board notes for the log. `dev` is the place of a device among those of its board.
#[derive(Clone, Copy, PartialEq, Eq)]
pub enum What {
    /// The shown UART `dev` sent a byte.
    Byte { dev: u8, value: u8 },
    /// The shown CAN controller `dev` sent a frame.
    Sent { dev: u8, frame: Frame },
    /// A load of `width` bytes at `at` reached nothing.
    Read { width: u8, at: u32 },
    /// A store of `width` bytes at `at` reached nothing.
    Write { width: u8, at: u32, value: u32 },
}

/// A note of one board for the log, with the key that orders it. The key's number is the note's
/// among those of its board, counted from 0.
#[derive(Clone, Copy, PartialEq, Eq)]
pub struct Entry {
    pub key: Key,
    pub what: What,
}
