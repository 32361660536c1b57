//! The serial port.
ghost use Rattle.std.specs.Prelude.{◌≡◌, ◌+◌, ◌≤◌, [], ◌∷◌, ◌++◌, true, length, vec_len, vec_capacity, IfOk, OnOk, OnErr};
ghost use Rattle.rv_mmio.specs.declared.serial.SerialReg.TheVariants.{Rx, Status};
ghost use Rattle.rv_mmio.specs.Support.ConsoleRoom.{HasConsoleRoom};
ghost use Rattle.rv_mmio.specs.Serial.{serial_at_reset, serial_status, serial_register, received};
ghost use Rattle.rv_mmio.specs.Room.{is_full, wants_room};

use crate::buffer::copied_buffer;
use circular_buffer::HeapCircularBuffer;
use rv_base::NoMemory;
use std::alloc::Global;
use std::marker::Model;

/// The most received bytes that the queue holds.
const QUEUE: usize = 16;

/// The bytes that the console makes room for, at the least, when it has none.
const ROOM: usize = 4096;

/// The word that a load of the receive register returns where no byte is waiting: a word that no byte has.
const NO_BYTE: u32 = 0x8000_0000;

/// A register of the serial port.
#[derive(Clone, Copy)]
pub enum SerialReg {
    /// The transmit register: a store sends the low byte of its word.
    Tx,
    /// The receive register: a load takes the oldest received byte.
    Rx,
    /// The status register: bit 0 says that a received byte is waiting, bit 1 that a byte may be sent, which
    /// is always so, and bit 2 that a received byte was lost.
    Status,
}

/// The serial port: a queue of at most 16 received bytes, and the console, which is all bytes that were sent.
#[derive(Drop)]
pub struct Serial {
    waiting: HeapCircularBuffer<u8>,
    sent: Vec<u8>,
    overrun: bool,
}

impl Model for Serial {
    ghost use Rattle.std.specs.Prelude.{◌≡◌, vec_len, vec_capacity};
    ghost use Rattle.rv_mmio.specs.Serial.{SerialState};
    ghost use Rattle.rv_mmio.specs.Support.ConsoleRoom.{HasConsoleRoom};

    ghost Value = { SerialState };

    ghost view = { λ s. record { waiting = s.waiting.items; sent = s.sent.items; overrun = s.overrun } };

    ghost invariant = { λ s. (s.waiting.capacity ≡ 16) × HasConsoleRoom (vec_len s.sent) (vec_capacity s.sent) };
}

impl Serial {
    /// Returns a port with an empty queue and an empty console. Allocates the queue.
    pub fn new(alloc: Global) -> Result<Serial, NoMemory>
        ensures { IfOk result (λ s. s ≡ serial_at_reset) }
    {
        Ok(Serial {
            waiting: HeapCircularBuffer::with_capacity(alloc, QUEUE)?,
            sent: Vec::new(alloc),
            overrun: false,
        })
    }

    /// Returns a copy of the port. It allocates the queue, and the console with its room.
    ///
    /// # Errors
    ///
    /// `NoMemory` if memory runs out.
    pub fn try_clone(&self, alloc: Global) -> Result<Serial, NoMemory>
        ensures { IfOk result (λ s. s ≡ self.now) }
    {
        Ok(Serial {
            waiting: copied_buffer(alloc, &self.waiting)?,
            sent: copied_console(alloc, &self.sent)?,
            overrun: self.overrun,
        })
    }

    /// Receives a byte from outside. Where 16 are waiting already, the byte is lost and the overrun is set.
    pub fn receive(&mut self, byte: u8)
        ensures { self.new ≡ received self.old byte }
    {
        if self.waiting.try_push_back(byte).is_err() {
            self.overrun = true;
        }
    }

    /// Loads a register. A load of the receive register takes the byte, one of the status register clears the
    /// overrun.
    pub fn load(&mut self, reg: SerialReg) -> u32
        ensures value { result ≡ (serial_register reg).word self.old }
        ensures after { self.new ≡ (serial_register reg).loaded self.old }
    {
        match reg {
            SerialReg::Tx => 0,
            SerialReg::Rx => self.take_byte(),
            SerialReg::Status => self.take_status(),
        }
    }

    /// Stores a word in a register. A store to the transmit register appends the low byte to the console; the
    /// others change nothing. A store is refused only where the console has to make room, which it does for
    /// 4096 bytes at a time.
    pub fn store(&mut self, reg: SerialReg, word: u32) -> Result<(), NoMemory>
        ensures ok { OnOk result (self.new ≡ (serial_register reg).stored self.old word) }
        ensures err { OnErr result (self.new ≡ self.old) }
        ensures room { OnErr result (wants_room self.old reg ≡ true) }
    {
        match reg {
            SerialReg::Tx => self.send((word % 256) as u8),
            SerialReg::Rx | SerialReg::Status => Ok(()),
        }
    }

    /// Returns the console: all bytes that were sent, oldest first.
    pub fn console(&self) -> &[u8]
        ensures { result.now ≡ self.now.sent }
    {
        self.sent.as_slice()
    }

    /// Returns how many received bytes are waiting.
    pub fn waiting(&self) -> usize
        ensures count { result ≡ length self.now.waiting }
        ensures bound { result ≤ 16 }
    {
        self.waiting.len()
    }

    /// Returns whether a received byte was lost since the last load of the status register.
    pub fn overrun(&self) -> bool
        ensures { result ≡ self.now.overrun }
    {
        self.overrun
    }

    /// Appends a byte to the console.
    #[tactic(auto, unfolding(crate::specs::Room::is_full))]
    fn send(&mut self, byte: u8) -> Result<(), NoMemory>
        ensures ok { OnOk result (self.new ≡ record self.old { sent = self.old.sent ++ byte ∷ [] }) }
        ensures err { OnErr result (self.new ≡ self.old) }
        ensures room { OnErr result (is_full self.old ≡ true) }
    {
        if self.sent.len() % ROOM == 0 {
            make_room(&mut self.sent)?;
        }
        self.sent.push(byte).map_err(|_| NoMemory)
    }

    /// Takes the oldest received byte, if one is waiting.
    fn take_byte(&mut self) -> u32
        ensures value { result ≡ (serial_register Rx).word self.old }
        ensures after { self.new ≡ (serial_register Rx).loaded self.old }
    {
        match self.waiting.pop_front() {
            Some(byte) => byte as u32,
            None => NO_BYTE,
        }
    }

    /// Returns the status word, and clears the overrun.
    fn take_status(&mut self) -> u32
        ensures value { result ≡ serial_status self.old }
        ensures after { self.new ≡ (serial_register Status).loaded self.old }
    {
        let received = if self.waiting.is_empty() { 0 } else { 1 };
        let lost = if self.overrun { 4 } else { 0 };
        self.overrun = false;
        received + 2 + lost
    }
}

/// Makes room for 4096 more bytes in a console.
fn make_room(sent: &mut Vec<u8>) -> Result<(), NoMemory>
    ensures ok { OnOk result (vec_len sent.old + ROOM ≤ vec_capacity sent.new) }
    ensures items { sent.new.items ≡ sent.old.items }
    ensures len { vec_len sent.new ≡ vec_len sent.old }
    ensures capacity { vec_capacity sent.old ≤ vec_capacity sent.new }
{
    sent.reserve(ROOM)?;
    Ok(())
}

/// Returns a copy of a console, with room up to the next multiple of 4096 bytes.
fn copied_console(alloc: Global, sent: &[u8]) -> Result<Vec<u8>, NoMemory>
    ensures items { IfOk result (λ copy. copy.items ≡ sent.now) }
    ensures room { IfOk result (λ copy. HasConsoleRoom (vec_len copy) (vec_capacity copy)) }
{
    let mut copy = Vec::with_capacity(alloc, sent.len().next_multiple_of(ROOM))?;
    copy.extend_from_slice(sent)?;
    Ok(copy)
}
