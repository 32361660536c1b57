//! What is noted of the lines of a source while they are laid out.
ghost use Rattle.std.specs.Prelude.{◌≡◌, ◌++◌, OnOk};
ghost use Rattle.std.specs.Option.{option_map};
ghost use Rattle.rv_asm.specs.Layout.{labels_in};
ghost use Rattle.rv_asm.specs.Support.Steps.{noted_with};

use crate::layout::Known;
use rv_base::RAM_BASE;
use rv_source::Label;
use std::alloc::{AllocError, Global};
use std::marker::Model;

/// A name that a line defines as a label, with its address.
#[derive(Drop)]
pub struct PlacedName {
    pub name: Vec<u8>,
    pub address: u32,
}

impl Model for PlacedName {
    ghost use Rattle.std.specs.Prelude.{List, ℕ};

    ghost Value = { List ℕ × ℕ };

    ghost view = { λ p. (p.name.items, p.address) };
}

/// Appends the names of labels at an address.
fn push_names(
    alloc: Global,
    address: u32,
    labels: &[Label],
    out: &mut Vec<PlacedName>,
) -> Result<(), AllocError>
    ensures { OnOk result (out.new.items ≡ out.old.items ++ labels_in address labels.now) }
{
    let [first, rest @ ..] = labels else {
        return Ok(());
    };
    if let Label::Name(name) = first {
        let name = name.bytes().to_vec(alloc)?;
        out.push(PlacedName { name, address })?;
    }
    push_names(alloc, address, rest, out)
}

/// Appends a line for each of `count` names that has none yet.
fn push_lines(line: usize, count: usize, out: &mut Vec<usize>) -> Result<(), AllocError> {
    for _ in out.len()..count {
        out.push(line)?;
    }
    Ok(())
}

/// The addresses of some lines, with the one following them, and their labels.
#[derive(Drop)]
pub struct Notes {
    pub addresses: Vec<u32>,
    pub labels: Vec<PlacedName>,
    /// The line that defines each name, counted from 1, in order of definition.
    pub origins: Vec<usize>,
}

impl Model for Notes {
    ghost use Rattle.rv_asm.specs.Lines.{Located};

    ghost Value = { Located };

    ghost view = { λ n. record { addresses = n.addresses.items; labels = n.labels.items } };
}

impl Notes {
    ghost use Rattle.std.specs.Prelude.{◌≡◌, [], IfOk, OnOk};
    ghost use Rattle.rv_asm.specs.Support.Steps.{located, noted_with};

    /// Makes the notes of no lines.
    #[tactic(auto, unfolding(crate::specs::Support::Steps::joined, crate::specs::Support::Steps::known_before, crate::specs::Support::Steps::up_to))]
    pub fn new(alloc: Global) -> Result<Notes, AllocError>
        ensures { IfOk result (λ n. n ≡ located [] 0) }
    {
        let mut addresses = Vec::new(alloc);
        addresses.push(RAM_BASE)?;
        Ok(Notes {
            addresses,
            labels: Vec::new(alloc),
            origins: Vec::new(alloc),
        })
    }

    /// Adds a line from an address on, with its labels, by what is known after it.
    fn add(
        &mut self,
        alloc: Global,
        here: u32,
        labels: &[Label],
        known: &Known,
    ) -> Result<(), AllocError>
        ensures { OnOk result (self.new ≡ noted_with here labels.now known.now.address self.old) }
    {
        push_names(alloc, here, labels, &mut self.labels)?;
        let line = self.addresses.len();
        let count = known.symbols().names.map().len();
        push_lines(line, count, &mut self.origins)?;
        Ok(self.addresses.push(known.address())?)
    }
}

/// Adds a line to notes, if there are any.
pub fn note(
    alloc: Global,
    notes: &mut Option<Notes>,
    here: u32,
    labels: &[Label],
    known: &Known,
) -> Result<(), AllocError>
    ensures { OnOk result (notes.new ≡ option_map (noted_with here labels.now known.now.address) notes.old) }
{
    match notes {
        Some(notes) => notes.add(alloc, here, labels, known),
        None => Ok(()),
    }
}
