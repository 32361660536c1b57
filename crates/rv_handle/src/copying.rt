//! Copies of texts.
ghost use Rattle.std.specs.Prelude.{◌≡◌, ◌++◌, drop, length};
ghost use Rattle.rv_handle.specs.Pages.{copied};

/// Copies a text from a place on, and returns how many bytes were copied.
pub fn copy_from(text: &[u8], from: usize, out: &mut [u8]) -> usize
    ensures count { result ≡ length (copied text.now from (length out.old)) }
    ensures bytes { out.new ≡ copied text.now from (length out.old) ++ drop result out.old }
{
    if from >= text.len() {
        return 0;
    }
    let count = (text.len() - from).min(out.len());
    out[..count].copy_from_slice(&text[from..from + count]);
    count
}
