//! What has a JSON, and how it is sent: numbers, texts and lists.
ghost use Rattle.std.specs.Prelude.{◌≡◌, List, ℕ, IfOk, OnOk, encode_utf8_all, string_bytes};
ghost use Rattle.serde_json.specs.Data.{Data, boolean, null, string};
ghost use Rattle.rv_json.specs.Support.Sends.{Sends};
ghost use Rattle.rv_json.specs.Json.{integer, list_data, natural, option_data, text_data};
ghost use Rattle.rv_json.specs.Support.Labels.{labels};

use crate::names::Names;
use rv_answers::{Many, Registers};
use rv_base::NoMemory;
use rv_source::Name;
use serde::Serializer;
use std::alloc::Global;

/// What has a JSON by the labels of a source. It is no `Serialize`, since that knows no labels.
pub(crate) trait ToJson {
    /// Its data, by the labels of the source.
    ghost json: { List (List ℕ × ℕ) → Self → Data };

    /// Sends its data.
    fn send<S: Serializer>(&self, names: &Names<'_>, out: &mut S) -> Result<(), S::Error>
        ensures { OnOk result
            (Sends (json (labels names.now) self.now) (S.written out.old) (S.written out.new)) };
}

/// Sends a number.
#[tactic(auto, unfolding(crate::specs::Support::Sends::Sends))]
fn send_natural<S: Serializer>(number: u64, out: &mut S) -> Result<(), S::Error>
    ensures { OnOk result (Sends (natural number) (S.written out.old) (S.written out.new)) }
{
    out.u64(number)
}

/// Sends a word.
#[tactic(auto, unfolding(crate::specs::Support::Sends::Sends))]
pub(crate) fn send_word<S: Serializer>(word: &str, out: &mut S) -> Result<(), S::Error>
    ensures { OnOk result (Sends (string word.now) (S.written out.old) (S.written out.new)) }
{
    out.str(word)
}

/// Sends that there is nothing.
#[tactic(auto, unfolding(crate::specs::Support::Sends::Sends))]
pub(crate) fn send_null<S: Serializer>(out: &mut S) -> Result<(), S::Error>
    ensures { OnOk result (Sends null (S.written out.old) (S.written out.new)) }
{
    out.unit()
}

impl ToJson for bool {
    ghost json = { λ _ b. boolean b };

    #[tactic(auto, unfolding(crate::specs::Support::Sends::Sends))]
    fn send<S: Serializer>(&self, _: &Names<'_>, out: &mut S) -> Result<(), S::Error> {
        out.bool(*self)
    }
}

impl ToJson for u8 {
    ghost json = { λ _ n. natural n };

    fn send<S: Serializer>(&self, _: &Names<'_>, out: &mut S) -> Result<(), S::Error> {
        send_natural(u64::from(*self), out)
    }
}

impl ToJson for u16 {
    ghost json = { λ _ n. natural n };

    fn send<S: Serializer>(&self, _: &Names<'_>, out: &mut S) -> Result<(), S::Error> {
        send_natural(u64::from(*self), out)
    }
}

impl ToJson for u32 {
    ghost json = { λ _ n. natural n };

    fn send<S: Serializer>(&self, _: &Names<'_>, out: &mut S) -> Result<(), S::Error> {
        send_natural(u64::from(*self), out)
    }
}

impl ToJson for u64 {
    ghost json = { λ _ n. natural n };

    fn send<S: Serializer>(&self, _: &Names<'_>, out: &mut S) -> Result<(), S::Error> {
        send_natural(*self, out)
    }
}

impl ToJson for i32 {
    ghost json = { λ _ z. integer z };

    #[tactic(auto, unfolding(crate::specs::Json::integer, crate::specs::Support::Sends::Sends))]
    fn send<S: Serializer>(&self, _: &Names<'_>, out: &mut S) -> Result<(), S::Error> {
        out.i64(i64::from(*self))
    }
}

impl ToJson for usize {
    ghost json = { λ _ n. natural n };

    fn send<S: Serializer>(&self, _: &Names<'_>, out: &mut S) -> Result<(), S::Error> {
        send_natural(*self as u64, out)
    }
}

impl ToJson for &str {
    ghost json = { λ _ s. string s.now };

    fn send<S: Serializer>(&self, _: &Names<'_>, out: &mut S) -> Result<(), S::Error> {
        send_word(*self, out)
    }
}

impl<T: ToJson> ToJson for Option<T> {
    ghost json = { λ ls o. option_data (T.json ls) o };

    #[tactic(auto, unfolding(crate::specs::Json::option_data))]
    fn send<S: Serializer>(&self, names: &Names<'_>, out: &mut S) -> Result<(), S::Error> {
        match self {
            Some(value) => value.send(names, out),
            None => send_null(out),
        }
    }
}

impl<T: ToJson> ToJson for &[T] {
    ghost json = { λ ls s. list_data (T.json ls) s.now };

    fn send<S: Serializer>(&self, names: &Names<'_>, out: &mut S) -> Result<(), S::Error> {
        out.begin_seq(Some(self.len()))?;
        for item in self.iter() {
            item.send(names, out)?;
        }
        out.end_seq()
    }
}

impl<T: ToJson> ToJson for Many<T> {
    ghost json = { λ ls m. list_data (T.json ls) m };

    fn send<S: Serializer>(&self, names: &Names<'_>, out: &mut S) -> Result<(), S::Error> {
        self.items().send(names, out)
    }
}

impl ToJson for Registers {
    ghost json = { λ _ r. list_data natural r };

    fn send<S: Serializer>(&self, names: &Names<'_>, out: &mut S) -> Result<(), S::Error> {
        self.as_slice().send(names, out)
    }
}

/// Returns a string whose characters are bytes.
fn string_of(alloc: Global, bytes: &[u8]) -> Result<String, NoMemory>
    ensures { IfOk result (λ s. string_bytes s ≡ encode_utf8_all bytes.now) }
{
    let mut text = String::new(alloc);
    for byte in bytes {
        text.push(char::from(*byte))?;
    }
    Ok(text)
}

/// Sends a string whose characters are bytes.
#[tactic(auto, unfolding(crate::specs::Json::text_data))]
fn send_text<S: Serializer>(bytes: &[u8], names: &Names<'_>, out: &mut S) -> Result<(), S::Error>
    ensures { OnOk result (Sends (text_data bytes.now) (S.written out.old) (S.written out.new)) }
{
    match string_of(names.alloc, bytes) {
        Ok(text) => send_word(text.as_str(), out),
        Err(NoMemory) => Err(out.custom("out of memory")),
    }
}

/// Bytes that are a text.
#[derive(Clone, Copy)]
pub(crate) struct Text<'a>(pub(crate) &'a Many<u8>);

impl ToJson for Text<'_> {
    ghost json = { λ _ t. text_data t.0.now };

    fn send<S: Serializer>(&self, names: &Names<'_>, out: &mut S) -> Result<(), S::Error> {
        send_text(self.0.items(), names, out)
    }
}

/// Bytes that are a text and that a slice lends.
#[derive(Clone, Copy)]
pub(crate) struct Bytes<'a>(pub(crate) &'a [u8]);

impl ToJson for Bytes<'_> {
    ghost json = { λ _ b. text_data b.0.now };

    fn send<S: Serializer>(&self, names: &Names<'_>, out: &mut S) -> Result<(), S::Error> {
        send_text(self.0, names, out)
    }
}

impl ToJson for Name<'_> {
    ghost json = { λ _ n. text_data n };

    fn send<S: Serializer>(&self, names: &Names<'_>, out: &mut S) -> Result<(), S::Error> {
        send_text(self.bytes(), names, out)
    }
}
