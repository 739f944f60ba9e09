//! The note that stands in the message's row.

ghost use Rattle.std.specs.Prelude.{◌≡◌, IfOk, string_bytes};
ghost use Rattle.std.specs.Option.{option_map};
ghost use Rattle.screen_editor.specs.Typing.{hint_behind};
ghost use Rattle.screen_editor.specs.Watched.{note_of, untaken_behind, untaken_by, untaken_text};

use crate::key::Key;
use std::alloc::{AllocError, Global};

/// The most bytes that are told as not taken.
pub(crate) const MOST_UNTAKEN: u32 = 999_999;

/// How many of the last bytes were no key, once this one is taken. Bytes that are typed or pasted behind them leave
/// the count.
pub(crate) fn untaken_by(key: Key, untaken: u32) -> u32
    ensures { result ≡ untaken_by key untaken }
{
    if matches!(key, Key::Typed(_)) {
        return untaken;
    }
    if !matches!(key, Key::Nothing) {
        return 0;
    }
    if untaken < MOST_UNTAKEN {
        untaken + 1
    } else {
        untaken
    }
}

/// How many of the last of these bytes were no key.
pub(crate) fn untaken_behind(keys: &[u8]) -> u32
    ensures { result ≡ untaken_behind 0 keys.now }
{
    let mut untaken = 0;
    for key in keys {
        untaken = untaken_by(Key::of(*key), untaken);
    }
    untaken
}

/// What is told before the first key, where none was played.
pub(crate) fn hint_behind<'a>(played: &[u8], hint: Option<&'a str>) -> Option<&'a str>
    ensures { option_map (λ h. h.now) result ≡ hint_behind played.now (option_map (λ h. h.now) hint.entry) }
{
    if played.is_empty() { hint } else { None }
}

/// So many bytes, as they are told.
pub(crate) fn untaken_text(alloc: Global, untaken: u32) -> Result<String, AllocError>
    ensures { IfOk result (λ s. string_bytes s ≡ untaken_text untaken) }
{
    format!(in alloc; "bytes not taken: {untaken}")
}

/// What is told before the first key, or else how many bytes were not taken, by this text, or else the message.
pub(crate) fn note_of<'a>(
    hint: Option<&'a str>,
    untaken: u32,
    text: &'a str,
    message: Option<&'a str>,
) -> Option<&'a str>
    requires { text.now ≡ untaken_text untaken }
    ensures { option_map (λ m. m.now) result
        ≡ note_of (option_map (λ h. h.now) hint.entry) untaken (option_map (λ m. m.now) message.entry) }
{
    match hint {
        Some(hint) => Some(hint),
        None if untaken == 0 => message,
        None => Some(text),
    }
}
