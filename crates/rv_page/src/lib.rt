//! What a web page calls: a lab that the page keeps between calls by a handle, the command lines that it
//! executes, and the texts that it answers. What each call does is in `rv_handle`.
#![tactic(auto)]

ghost use Rattle.std.specs.Prelude.{◌≡◌, ◌≤◌, ◌==◌, ◌⊎◌, ◌++◌, true, false, not, drop, length, max, [], Some, None, IfSome, is_some};
ghost use Rattle.rv_lab.specs.State.{setup};
ghost use Rattle.rv_lab.specs.Commands.{GoesOn, IsWithin};
ghost use Rattle.rv_lab.specs.Runs.{Obeys, reply_on, reply_to};
ghost use Rattle.rv_base.specs.Lines.{lines};
ghost use Rattle.rv_handle.specs.Pages.{IsOpened, IsRefused, OfLabs, copied, empty, in_pieces, looks, reply_text, sent, taken, told_as};

use rv_handle::{Handle, NewHandle, State, copy_from};
use rv_lab::Sizes;
use std::alloc::Global;

/// Makes a handle without a lab and with an empty text, and returns whether there was memory for it. What
/// lies at `out` then is the handle that the page passes to its other calls.
#[unsafe(no_mangle)]
pub extern "C" fn page_new(alloc: Global, out: &mut NewHandle) -> bool
    ensures made { result ≡ true → out.new.value ≡ Some empty }
    ensures kept { result ≡ false → out.new ≡ out.old }
{
    let Ok(state) = Box::new(alloc, State::new(alloc)) else {
        return false;
    };
    *out = NewHandle::of(state);
    true
}

/// Opens a lab of a source with a timed list, on a board with `pages` pages and `slots` slots. The code is 0
/// if it is open, before its first step, and the text is empty; 1 if the source, the list or the board is
/// refused, and the text says why, as does the JSON where it is the source; 4 if memory ran out. There is no lab but by
/// 0.
#[unsafe(no_mangle)]
pub extern "C" fn page_load(
    alloc: Global,
    handle: &mut Handle,
    source: &[u8],
    inputs: &[u8],
    pages: u16,
    slots: u16,
) -> u32
    ensures code { (result ≡ 0) ⊎ (result ≡ 1) ⊎ (result ≡ 4) }
    ensures lab { is_some handle.new.value.lab ≡ (result == 0) }
    ensures opened { result ≡ 0 → IfSome handle.new.value.lab (IsOpened source.now inputs.now pages slots) }
    ensures refused { result ≡ 1 → IsRefused source.now inputs.now pages slots handle.new.value.json.bytes }
    ensures quiet { result ≡ 0 → handle.new.value.answer.bytes ≡ [] }
{
    handle
        .state()
        .load(alloc, source, inputs, Sizes { pages, slots })
}

/// Executes a command line of the lab: the JSON is its answer with what the console got, and the text is the answer for
/// people. It takes at most `most` steps, or one: a longer run goes on by `page_go_on`. The code is 0 if another command
/// follows, 1 if the run goes on, 2 if what was done is to be saved under the line's name, 3 if no command follows, 4 if
/// memory ran out, and 5 if there is no lab.
#[unsafe(no_mangle)]
pub extern "C" fn page_command(handle: &mut Handle, line: &[u8], most: u64) -> u32
    ensures code { result ≤ 5 }
    ensures none { is_some handle.old.value.lab ≡ not (result == 5) }
    ensures lab { is_some handle.new.value.lab ≡ is_some handle.old.value.lab }
    ensures setup { OfLabs handle.old.value handle.new.value (λ l m. setup m ≡ setup (in_pieces most l)) }
    ensures obeys { result ≤ 3 → OfLabs handle.old.value handle.new.value
        (λ l. Obeys line.now (in_pieces most l)) }
    ensures follows { result ≤ 3 → OfLabs handle.old.value handle.new.value (λ l m. result
        ≡ (told_as (reply_to line.now (in_pieces most l) m).next).0) }
    ensures json { result ≤ 3 → OfLabs handle.old.value handle.new.value
        (λ l m. handle.new.value.json.bytes ≡ reply_text m (reply_to line.now (in_pieces most l) m)) }
    ensures bound { OfLabs handle.old.value handle.new.value (IsWithin (max most 1)) }
{
    handle.state().command(line, most)
}

/// Answers command lines, of which each ends with a line feed: the text has a line of JSON for each, which is its answer
/// if it asks for nothing else, and `null` for any other (docs/JSON.md). The lab stays as it is. The code is
/// 0, 4 if memory ran out, and 5 if there is no lab.
#[unsafe(no_mangle)]
pub extern "C" fn page_look(handle: &mut Handle, text: &[u8]) -> u32
    ensures code { (result ≡ 0) ⊎ (result ≡ 4) ⊎ (result ≡ 5) }
    ensures none { is_some handle.old.value.lab ≡ not (result == 5) }
    ensures lab { handle.new.value.lab ≡ handle.old.value.lab }
    ensures looks { result ≡ 0 → IfSome handle.old.value.lab
        (λ l. handle.new.value.answer.bytes ≡ looks l (lines text.now)) }
{
    handle.state().look(text)
}

/// Goes on with the run that isn't over, if there is one, by at most `most` steps. The JSON, the text and the code are
/// those of `page_command`.
#[unsafe(no_mangle)]
pub extern "C" fn page_go_on(handle: &mut Handle, most: u64) -> u32
    ensures code { result ≤ 5 }
    ensures none { is_some handle.old.value.lab ≡ not (result == 5) }
    ensures lab { is_some handle.new.value.lab ≡ is_some handle.old.value.lab }
    ensures setup { OfLabs handle.old.value handle.new.value (λ l m. setup m ≡ setup (in_pieces most l)) }
    ensures continues { result ≤ 3 → OfLabs handle.old.value handle.new.value
        (λ l. GoesOn (in_pieces most l)) }
    ensures follows { result ≤ 3 → OfLabs handle.old.value handle.new.value (λ l m. result ≡ (told_as (reply_on (in_pieces most l) m).next).0) }
    ensures quiet { result ≤ 3 → IfSome handle.old.value.lab
        (λ l. l.plan ≡ None → handle.new.value.answer.bytes ≡ []) }
    ensures json { result ≤ 3 → OfLabs handle.old.value handle.new.value
        (λ l m. handle.new.value.json.bytes ≡ reply_text m (reply_on (in_pieces most l) m)) }
    ensures bound { OfLabs handle.old.value handle.new.value (IsWithin (max most 1)) }
{
    handle.state().go_on(most)
}

/// Returns how many steps the lab's board has taken, 0 without a lab.
#[unsafe(no_mangle)]
pub extern "C" fn page_steps(handle: &mut Handle) -> u64
    ensures kept { handle.new.value ≡ handle.old.value }
    ensures steps { result ≡ taken handle.old.value }
{
    handle.state().steps()
}

/// Copies the text of the last answer from a place on, and returns how many bytes were copied.
#[unsafe(no_mangle)]
pub extern "C" fn page_text(handle: &mut Handle, from: usize, out: &mut [u8]) -> usize
    ensures kept { handle.new.value ≡ handle.old.value }
    ensures count { result ≡ length (copied handle.old.value.answer.bytes from (length out.old)) }
    ensures bytes { out.new ≡ copied handle.old.value.answer.bytes from (length out.old)
        ++ drop result out.old }
{
    copy_from(handle.state().answer.bytes(), from, out)
}

/// Copies the JSON of the last answer from a place on, and returns how many bytes were copied.
#[unsafe(no_mangle)]
pub extern "C" fn page_json(handle: &mut Handle, from: usize, out: &mut [u8]) -> usize
    ensures kept { handle.new.value ≡ handle.old.value }
    ensures count { result ≡ length (copied handle.old.value.json.bytes from (length out.old)) }
    ensures bytes { out.new ≡ copied handle.old.value.json.bytes from (length out.old) ++ drop result out.old }
{
    copy_from(handle.state().json.bytes(), from, out)
}

/// Copies the console from a place on, and returns how many bytes were copied.
#[unsafe(no_mangle)]
pub extern "C" fn page_console(handle: &mut Handle, from: usize, out: &mut [u8]) -> usize
    ensures kept { handle.new.value ≡ handle.old.value }
    ensures count { result ≡ length (copied (sent handle.old.value) from (length out.old)) }
    ensures bytes { out.new ≡ copied (sent handle.old.value) from (length out.old) ++ drop result out.old }
{
    copy_from(handle.state().console(), from, out)
}
