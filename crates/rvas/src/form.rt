//! The forms of a file.
/// The form of a file.
#[derive(Clone, Copy, PartialEq, Eq, Debug)]
pub enum Form {
    /// An ELF executable with symbols and lines.
    Elf,
    /// The bytes of the image alone.
    Binary,
    /// The same as Intel HEX.
    Hex,
}

/// Returns the form of a name: that of `--form`.
fn form_by_name(name: &str) -> Option<Form> {
    match name {
        "elf" => Some(Form::Elf),
        "bin" => Some(Form::Binary),
        "hex" => Some(Form::Hex),
        _ => None,
    }
}

/// Returns the form of a path by its ending.
fn form_by_ending(path: &str) -> Option<Form> {
    if path.ends_with(".elf") {
        Some(Form::Elf)
    } else if path.ends_with(".bin") {
        Some(Form::Binary)
    } else if path.ends_with(".hex") {
        Some(Form::Hex)
    } else {
        None
    }
}

/// Returns the form of a file: the one that is asked for, or that of the path's ending.
pub fn form_of(path: &str, name: Option<&str>) -> Option<Form> {
    match name {
        Some(name) => form_by_name(name),
        None => form_by_ending(path),
    }
}
