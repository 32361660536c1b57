//! Where functions begin.
use crate::code::{Code, address_of, index_of};
use crate::places::{Entry, Place, place_at};
use rv_isa::{Fields, Operation};

/// The number of mtvec, which has the address of the trap handler.
const MTVEC: i32 = 0x305;

/// The number of mscratch, which handlers exchange with sp.
pub const MSCRATCH: i32 = 0x340;

/// The number of mepc, which has the address at which MRET goes on.
pub const MEPC: i32 = 0x341;

/// The values of registers, as far as code in a row tells them.
#[derive(Drop)]
struct Known {
    values: [Option<u32>; 32],
}

impl Known {
    /// Returns the value of a register.
    fn value(&self, register: u8) -> Option<u32> {
        match self.values.get(usize::from(register)) {
            Some(value) => *value,
            None => None,
        }
    }

    /// Changes what is known of a register.
    fn set(&mut self, register: u8, value: Option<u32>) {
        let index = usize::from(register);
        if index > 0 && index < 32 {
            self.values[index] = value;
        }
    }

    /// Follows an instruction at an address.
    fn follow(&mut self, address: u32, fields: &Fields) {
        let imm = fields.imm.cast_unsigned();
        let value = match fields.operation {
            Operation::Lui => Some(imm.wrapping_mul(4096)),
            Operation::Auipc => Some(address.wrapping_add(imm.wrapping_mul(4096))),
            Operation::Addi => self
                .value(fields.rs1.number())
                .map(|value| value.wrapping_add(imm)),
            _ => None,
        };
        self.set(fields.rd.number(), value);
    }
}

/// Returns why a function begins at the address that a control register gets.
fn entry_in(csr: i32) -> Option<Entry> {
    match csr {
        MTVEC => Some(Entry::Handler),
        MEPC => Some(Entry::Resumed),
        _ => None,
    }
}

/// Returns the address at which a function begins by an instruction, and why.
fn entered(known: &Known, address: u32, fields: &Fields) -> Option<(u32, Entry)> {
    let links = fields.rd.number() == 1;
    let imm = fields.imm.cast_unsigned();
    match fields.operation {
        Operation::Jal => {
            if links {
                Some((address.wrapping_add(imm), Entry::Called))
            } else {
                None
            }
        }
        Operation::Jalr => {
            let base = known.value(fields.rs1.number())?;
            if links || fields.rs1.number() == 6 {
                Some((base.wrapping_add(imm), Entry::Called))
            } else {
                None
            }
        }
        Operation::Csrrw => {
            let value = known.value(fields.rs1.number())?;
            let entry = entry_in(fields.imm)?;
            Some((value - value % 4, entry))
        }
        _ => None,
    }
}

/// Returns why a function begins at a place, where there is one more reason.
fn joined(old: Option<Entry>, new: Entry) -> Entry {
    match old {
        Some(Entry::Handler) => Entry::Handler,
        _ => new,
    }
}

/// Marks that a function begins at an address, if there is code.
fn enter(places: &mut [Place], address: u32, entry: Entry) {
    let index = index_of(address).unwrap_or(usize::MAX);
    if index < places.len() {
        let place = places[index];
        if place.is_code {
            places[index].entry = Some(joined(place.entry, entry));
        }
    }
}

/// Marks that a function begins at an address, if there is code with a label, and nothing else says why.
fn enter_label(places: &mut [Place], address: u32) {
    let place = place_at(places, index_of(address).unwrap_or(usize::MAX));
    if place.is_label && place.entry.is_none() {
        enter(places, address, Entry::Called);
    }
}

/// Marks the functions that instructions call, or that trap handlers or returns from traps begin with.
pub fn mark_entries(image: &[u8], places: &mut [Place]) {
    let mut known = Known { values: [None; 32] };
    for index in 0..places.len() {
        let code = Code { image, places };
        let Some(instr) = code.instruction(index) else {
            continue;
        };
        let address = address_of(index);
        if let Some((target, entry)) = entered(&known, address, instr.fields()) {
            enter(places, target, entry);
        }
        known.follow(address, instr.fields());
    }
}

/// Marks the functions whose labels follow data or are words of data.
pub fn mark_labelled(image: &[u8], places: &mut [Place]) {
    let mut follows_data = false;
    for index in 0..places.len() {
        let place = places[index];
        if !place.is_code {
            follows_data = follows_data || place.is_label;
            let code = Code { image, places };
            let word = code.word(index).unwrap_or(0);
            enter_label(places, word);
        } else {
            if follows_data {
                enter_label(places, address_of(index));
            }
            follows_data = false;
        }
    }
}
