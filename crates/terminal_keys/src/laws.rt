//! What `keys_of` says, in a sequence's own words. Each law is a contract, and its body does nothing.

ghost use Rattle.std.specs.Prelude.{◌≡◌, ◌≢◌, ℕ, ◌≤◌, List, [], ◌∷◌, ◌++◌, replicate, All, IsTrue, false};
ghost use Rattle.terminal_keys.specs.Held.{IsOpen};
ghost use Rattle.terminal_keys.specs.Keys.{keys_in, keys_of, letter};
ghost use Rattle.terminal_keys.specs.Laws.{AreParameters, IsEscape, IsFinal, IsOutside, IsSequenceTooLong, IsString};
ghost use Rattle.terminal_keys.specs.Laws.{BreaksOff, FallsAway, IsWholeSequence, Types};
ghost use Rattle.terminal_keys.specs.Pastes.{is_harmless, pasted_text, PastesText};
ghost use Rattle.terminal_keys.specs.Sequences.{is_in_string};
ghost use Rattle.terminal_keys.specs.declared.mode.Mode.{Mode};
ghost use Rattle.terminal_keys.specs.declared.mode.Mode.TheVariants.{Pasted};
ghost use Rattle.terminal_keys.specs.declared.stage.Stage.{Stage};

/// A byte that is typed and no escape is itself.
pub fn plain_bytes()
    ensures { (b : ℕ) (rest : List ℕ) → b ≢ 0x1B → keys_of (b ∷ rest) ≡ b ∷ keys_of rest }
{}

/// A whole sequence that is typed gives its keys, and nothing behind it is lost.
pub fn whole_sequences()
    ensures control { (ps : List ℕ) (b : ℕ) → AreParameters ps → IsFinal b
        → IsWholeSequence (0x1B ∷ 0x5B ∷ ps ++ b ∷ []) }
    ensures single { (b : ℕ) → 0x20 ≤ b → b ≤ 0x7E → Types (0x1B ∷ 0x4F ∷ b ∷ []) (letter b) }
{}

/// A control string falls away whole, which BEL ends, or ST, an escape and `\`; and so does any other escape sequence.
pub fn silent_sequences()
    ensures belled { (b : ℕ) (text : List ℕ) → IsString b text → FallsAway (0x1B ∷ b ∷ text ++ 0x07 ∷ []) }
    ensures terminated { (b : ℕ) (text : List ℕ) → IsString b text → FallsAway (0x1B ∷ b ∷ text ++ 0x1B ∷ 0x5C ∷ []) }
    ensures escape { (between : List ℕ) (b : ℕ) → IsEscape between b → FallsAway (0x1B ∷ between ++ b ∷ []) }
{}

/// What is no whole sequence gives nothing: of one that a byte breaks off all before that byte, which is not lost, of a
/// longer one 1,024 bytes, and of one that the bytes end in all of it.
pub fn broken_sequences()
    ensures escape { (b : ℕ) → IsOutside b → BreaksOff (0x1B ∷ []) b }
    ensures single { (b : ℕ) → IsOutside b → BreaksOff (0x1B ∷ 0x4F ∷ []) b }
    ensures control { (ps : List ℕ) (b : ℕ) → AreParameters ps → IsOutside b → BreaksOff (0x1B ∷ 0x5B ∷ ps) b }
    ensures string { (first : ℕ) (text : List ℕ) (b : ℕ) → IsString first text → is_in_string b ≡ false → b ≢ 0x07
        → BreaksOff (0x1B ∷ first ∷ text) b }
    ensures long { (bytes : List ℕ) → IsSequenceTooLong bytes → FallsAway bytes }
    ensures ended { (mode : Mode) (s : Stage) (bytes : List ℕ) → IsOpen s bytes → keys_in mode bytes ≡ [] }
{}

/// The keys that are known.
pub fn known_keys()
    ensures up { Types (0x1B ∷ 0x5B ∷ 0x41 ∷ []) (0x10 ∷ []) }
    ensures down { Types (0x1B ∷ 0x5B ∷ 0x42 ∷ []) (0x0E ∷ []) }
    ensures right { Types (0x1B ∷ 0x5B ∷ 0x43 ∷ []) (0x06 ∷ []) }
    ensures left { Types (0x1B ∷ 0x5B ∷ 0x44 ∷ []) (0x02 ∷ []) }
    ensures delete { Types (0x1B ∷ 0x5B ∷ 0x33 ∷ 0x7E ∷ []) (0x04 ∷ []) }
    ensures page_up { Types (0x1B ∷ 0x5B ∷ 0x35 ∷ 0x7E ∷ []) (replicate 22 0x10) }
    ensures page_down { Types (0x1B ∷ 0x5B ∷ 0x36 ∷ 0x7E ∷ []) (replicate 22 0x0E) }
    ensures modified { Types (0x1B ∷ 0x5B ∷ 0x31 ∷ 0x3B ∷ 0x35 ∷ 0x43 ∷ []) (0x06 ∷ []) }
{}

/// Between the marks of a paste no byte is a command: what is no text is a byte that is no key, and each byte of text is
/// itself, but that the end of a line that CR and LF make is one.
pub fn pastes()
    ensures begins { (rest : List ℕ) → keys_of (0x1B ∷ 0x5B ∷ 0x32 ∷ 0x30 ∷ 0x30 ∷ 0x7E ∷ rest) ≡ keys_in Pasted rest }
    ensures ends { (mode : Mode) (rest : List ℕ)
        → keys_in mode (0x1B ∷ 0x5B ∷ 0x32 ∷ 0x30 ∷ 0x31 ∷ 0x7E ∷ rest) ≡ keys_of rest }
    ensures text { (bytes : List ℕ) → All (λ b. b ≢ 0x1B) bytes → PastesText bytes }
    ensures no_command { (bytes : List ℕ) → All (λ b. IsTrue (is_harmless b)) (pasted_text 0 bytes) }
{}
