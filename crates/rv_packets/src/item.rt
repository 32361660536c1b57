//! What a stream says.
use std::marker::Model;

/// The contents of a packet, or a line that it has as digits; its view is the list of their bytes.
#[derive(Drop)]
pub struct Contents {
    bytes: Vec<u8>,
}

impl Model for Contents {
    ghost use Rattle.std.specs.Prelude.{List, ℕ};

    ghost Value = { List ℕ };

    ghost view = { λ c. c.bytes.items };
}

impl Contents {
    ghost use Rattle.std.specs.Prelude.{◌≡◌};

    /// Makes contents of bytes.
    pub fn of(bytes: Vec<u8>) -> Contents
        ensures { result ≡ bytes.items }
    {
        Contents { bytes }
    }

    /// Returns the bytes.
    pub fn bytes(&self) -> &[u8]
        ensures { result.now ≡ self.now }
    {
        self.bytes.as_slice()
    }
}

/// What a stream says.
#[derive(Drop)]
pub enum Item {
    /// A packet with its contents.
    Packet(Contents),
    /// A packet whose checksum is wrong.
    BadSum,
    /// The last packet was received.
    Ack,
    /// The last packet is to be sent again.
    Again,
    /// The run is to stop.
    Interrupt,
}
