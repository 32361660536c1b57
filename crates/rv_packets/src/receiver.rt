//! The receiver of a stream, byte after byte.
ghost use Rattle.std.specs.Prelude.{◌≡◌};
ghost use Rattle.rv_packets.specs.Items.{is_sum};

use crate::item::{Contents, Item};
use rv_base::{NoMemory, hex_digit};
use std::alloc::Global;
use std::marker::Model;
use std::mem;

/// Where a stream stands.
#[derive(Clone, Copy)]
pub enum Phase {
    /// Outside of a packet.
    Outside,
    /// In its contents.
    Inside,
    /// After a `}` in them.
    Escape,
    /// At the first digit of its checksum.
    First,
    /// At the last one, after this one.
    Last(u8),
}

/// The receiver of a stream; its view is where the stream stands.
#[derive(Drop)]
pub struct Receiver {
    phase: Phase,
    contents: Vec<u8>,
    sum: u8,
}

impl Model for Receiver {
    ghost use Rattle.rv_packets.specs.Items.{State};

    ghost Value = { State };

    ghost view = { λ r. record { phase = r.phase; contents = r.contents.items; sum = r.sum } };
}

/// Returns whether two digits are a sum.
fn is_sum(high: u8, low: u8, sum: u8) -> bool
    ensures { result ≡ is_sum high low sum }
{
    let high = u16::from(hex_digit(high).unwrap_or(16));
    let low = u16::from(hex_digit(low).unwrap_or(16));
    16 * high + low == u16::from(sum)
}

impl Receiver {
    ghost use Rattle.std.specs.Prelude.{◌≡◌, IfOk, OnErr, OnOk, Some};
    ghost use Rattle.rv_packets.specs.Items.{begun, inner, more, outside, step};
    ghost use Rattle.rv_packets.specs.declared.receiver.Phase.TheVariants.{Outside, Inside, Last};

    /// Makes a receiver of a stream from its beginning on.
    pub fn new(alloc: Global) -> Receiver
        ensures { result ≡ outside }
    {
        Receiver {
            phase: Phase::Outside,
            contents: Vec::new(alloc),
            sum: 0,
        }
    }

    /// Begins a packet.
    fn begin(&mut self)
        ensures { self.new ≡ begun }
    {
        self.phase = Phase::Inside;
        self.contents.clear();
        self.sum = 0;
    }

    /// Adds a byte that stands for one of the contents.
    fn add(&mut self, byte: u8, content: u8) -> Result<(), NoMemory>
        ensures ok { OnOk result (self.new ≡ more self.old byte content) }
        ensures err { OnErr result (self.new ≡ self.old) }
    {
        self.contents.extend_from_slice(&[content])?;
        self.sum = self.sum.wrapping_add(byte);
        self.phase = Phase::Inside;
        Ok(())
    }

    /// Takes a byte outside of packets, and returns what it says.
    #[tactic(auto, unfolding(crate::specs::Items::step))]
    fn take_outer(&mut self, byte: u8) -> Option<Item>
        ensures item { result ≡ (step Outside self.old byte).item }
        ensures state { self.new ≡ (step Outside self.old byte).state }
    {
        match byte {
            b'$' => {
                self.begin();
                None
            }
            b'+' => Some(Item::Ack),
            b'-' => Some(Item::Again),
            3 => Some(Item::Interrupt),
            _ => None,
        }
    }

    /// Takes a byte of the contents, which stands for one of them unless it is `#` or `$`.
    fn take_content(&mut self, byte: u8, content: u8) -> Result<(), NoMemory>
        ensures ok { OnOk result (self.new ≡ (inner self.old byte (more self.old byte content)).state) }
        ensures err { OnErr result (self.new ≡ self.old) }
    {
        match byte {
            b'#' => self.phase = Phase::First,
            b'$' => self.begin(),
            _ => return self.add(byte, content),
        }
        Ok(())
    }

    /// Takes a byte of the contents that follows no `}`.
    #[tactic(auto, unfolding(crate::specs::Items::step))]
    fn take_inner(&mut self, byte: u8) -> Result<(), NoMemory>
        ensures ok { OnOk result (self.new ≡ (step Inside self.old byte).state) }
        ensures err { OnErr result (self.new ≡ self.old) }
    {
        if byte != b'}' {
            return self.take_content(byte, byte);
        }
        self.phase = Phase::Escape;
        self.sum = self.sum.wrapping_add(byte);
        Ok(())
    }

    /// Takes the last digit of a checksum, and returns what the packet says.
    #[tactic(auto, unfolding(crate::specs::Items::step))]
    fn take_last(&mut self, alloc: Global, high: u8, low: u8) -> Item
        ensures item { Some result ≡ (step (Last high) self.old low).item }
        ensures state { self.new ≡ outside }
    {
        let is_good = is_sum(high, low, self.sum);
        let contents = mem::replace(&mut self.contents, Vec::new(alloc));
        self.phase = Phase::Outside;
        self.sum = 0;
        if is_good {
            Item::Packet(Contents::of(contents))
        } else {
            Item::BadSum
        }
    }

    /// Takes a byte of the stream, and returns what it says, if it says anything.
    ///
    /// # Errors
    ///
    /// `NoMemory` if memory runs out; nothing changes then.
    #[tactic(auto, unfolding(crate::specs::Items::step))]
    pub fn feed(&mut self, alloc: Global, byte: u8) -> Result<Option<Item>, NoMemory>
        ensures item { IfOk result (λ item. item ≡ (step self.old.phase self.old byte).item) }
        ensures state { OnOk result (self.new ≡ (step self.old.phase self.old byte).state) }
        ensures err { OnErr result (self.new ≡ self.old) }
    {
        match self.phase {
            Phase::Outside => Ok(self.take_outer(byte)),
            Phase::Inside => {
                self.take_inner(byte)?;
                Ok(None)
            }
            Phase::Escape => {
                self.take_content(byte, byte ^ 0x20)?;
                Ok(None)
            }
            Phase::First => {
                self.phase = Phase::Last(byte);
                Ok(None)
            }
            Phase::Last(high) => Ok(Some(self.take_last(alloc, high, byte))),
        }
    }
}
