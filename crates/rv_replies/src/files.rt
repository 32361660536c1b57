//! Texts and the program's file, which gdb reads in parts.
ghost use Rattle.std.specs.Prelude.{◌≡◌, ◌++◌, OnOk};
ghost use Rattle.rv_replies.specs.Looks.{file_text, in_extent, part_text, size_text, text_of};

use rv_base::{NoMemory, word_digits};
use rv_requests::{Extent, Part};
use std::marker::Model;

/// What gdb reads in parts.
#[derive(Drop)]
pub struct Files {
    features: Vec<u8>,
    memory_map: Vec<u8>,
    path: Vec<u8>,
    file: Vec<u8>,
}

impl Model for Files {
    ghost use Rattle.rv_replies.specs.Files.{FilesState};

    ghost Value = { FilesState };

    ghost view = { λ f. record { features = f.features.items; memory_map = f.memory_map.items; path = f.path.items; file = f.file.items } };
}

impl Files {
    /// Makes files of the description of a target's registers, where it has memory, and the path and the contents of its
    /// program's file.
    pub fn new(features: Vec<u8>, memory_map: Vec<u8>, path: Vec<u8>, file: Vec<u8>) -> Files
        ensures { result ≡ record { features = features.items; memory_map = memory_map.items; path = path.items; file = file.items } }
    {
        Files {
            features,
            memory_map,
            path,
            file,
        }
    }

    /// Returns the path of the program's file.
    pub(crate) fn path(&self) -> &[u8]
        ensures { result.now ≡ self.now.path }
    {
        self.path.as_slice()
    }

    /// Returns a text.
    fn text(&self, part: Part) -> &[u8]
        ensures { result.now ≡ text_of part self.now }
    {
        match part {
            Part::Features => self.features.as_slice(),
            Part::MemoryMap => self.memory_map.as_slice(),
            Part::ProgramPath => self.path.as_slice(),
        }
    }

    /// Appends a part of a text.
    pub(crate) fn append_part(
        &self,
        out: &mut Vec<u8>,
        part: Part,
        extent: Extent,
    ) -> Result<(), NoMemory>
        ensures { OnOk result (out.new.items ≡ out.old.items ++ part_text (text_of part self.now) extent) }
    {
        append_text_part(out, self.text(part), extent)
    }

    /// Appends a part of the file.
    pub(crate) fn append_file(&self, out: &mut Vec<u8>, extent: Extent) -> Result<(), NoMemory>
        ensures { OnOk result (out.new.items ≡ out.old.items ++ file_text self.now.file extent) }
    {
        append_file_part(out, self.file.as_slice(), extent)
    }

    /// Appends what the file's size is.
    pub(crate) fn append_size(&self, out: &mut Vec<u8>) -> Result<(), NoMemory>
        ensures { OnOk result (out.new.items ≡ out.old.items ++ size_text self.now.file) }
    {
        let size = self.file.len();
        let places = [
            (size / 16777216 % 256) as u8,
            (size / 65536 % 256) as u8,
            (size / 256 % 256) as u8,
            (size % 256) as u8,
        ];
        out.extend_from_slice(b"F40;")?;
        out.extend_from_slice(&[0, 0, 0, 0, 0, 0, 0, 0, 0, 0, 0x81, 0xa4])?;
        out.extend_from_slice(&[0; 20])?;
        out.extend_from_slice(&places)?;
        Ok(out.extend_from_slice(&[0; 28])?)
    }
}

/// Returns the bytes of a text that are in an extent.
fn in_extent(text: &[u8], extent: Extent) -> &[u8]
    ensures { result.now ≡ in_extent text.now extent }
{
    let rest = text.split_at(text.len().min(extent.from as usize)).1;
    rest.split_at(rest.len().min(extent.most as usize)).0
}

/// Appends a part of a text, and whether more follows.
#[tactic(auto, unfolding(crate::specs::Looks::part_text))]
fn append_text_part(out: &mut Vec<u8>, text: &[u8], extent: Extent) -> Result<(), NoMemory>
    ensures { OnOk result (out.new.items ≡ out.old.items ++ part_text text.now extent) }
{
    let end = u64::from(extent.from) + u64::from(extent.most);
    let mark = if end < text.len() as u64 { b"m" } else { b"l" };
    out.extend_from_slice(mark)?;
    Ok(out.extend_from_slice(in_extent(text, extent))?)
}

/// Appends a part of a file, after its length.
fn append_file_part(out: &mut Vec<u8>, file: &[u8], extent: Extent) -> Result<(), NoMemory>
    ensures { OnOk result (out.new.items ≡ out.old.items ++ file_text file.now extent) }
{
    let part = in_extent(file, extent);
    out.extend_from_slice(b"F")?;
    out.extend_from_slice(&word_digits(part.len() as u32))?;
    out.extend_from_slice(b";")?;
    Ok(out.extend_from_slice(part)?)
}
