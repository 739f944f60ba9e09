//! Keys that look, and change nothing.

ghost use Rattle.std.specs.Prelude.{◌≡◌, true};
ghost use Rattle.std.specs.List.{list_all};
ghost use Rattle.screen_editor.specs.Keys.{key_of};
ghost use Rattle.cord_tools.specs.Looking.{AllMakeNothing, MakesNothing, only_looks};

use screen_editor::{Effect, Key};

/// Whether a key makes no revision, whatever the text.
#[tactic(auto, using(crate::proofs::LookingKeys::look_makes_nothing))]
fn looks(key: Key) -> bool
    ensures looks { result ≡ only_looks key }
    ensures nothing { result ≡ true → MakesNothing key }
{
    match key.effect() {
        Effect::Looks(_) | Effect::Moves => true,
        Effect::Edits | Effect::Ends(_) => false,
    }
}

/// Whether no key of a session makes a revision, whatever the text: nothing is lost with them.
#[tactic(auto, using(crate::proofs::LookingKeys::looks_make_nothing))]
pub fn only_look(keys: &[u8]) -> bool
    ensures looks { result ≡ list_all (λ b. only_looks (key_of b)) keys.now }
    ensures nothing { result ≡ true → AllMakeNothing keys.now }
{
    for key in keys {
        if !looks(Key::of(*key)) {
            return false;
        }
    }
    true
}
