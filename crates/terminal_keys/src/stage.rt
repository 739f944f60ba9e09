//! How far a sequence is.

/// The stages of a sequence that is not yet whole, and of text.
#[derive(Clone, Copy, Debug, PartialEq, Eq)]
pub(crate) enum Stage {
    /// No sequence.
    Text,
    /// An escape.
    Escape,
    /// An escape and intermediate bytes.
    Intermediate,
    /// An escape and `[`, and parameters.
    Control,
    /// An escape and `O`.
    Single,
    /// An escape, the byte that begins a control string, and bytes of it.
    ControlString,
}

impl Stage {
    ghost use Rattle.std.specs.Prelude.{◌≡◌};
    ghost use Rattle.terminal_keys.specs.Sequences.{ends_with, next_stage};

    /// The stage behind this byte, where a sequence goes on or begins with it.
    pub(crate) fn behind(self, byte: u8) -> Option<Stage>
        ensures { result ≡ next_stage self byte }
    {
        match (self, byte) {
            (Stage::Text, 0x1B) => Some(Stage::Escape),
            (Stage::Escape, b'[') => Some(Stage::Control),
            (Stage::Escape, b'O') => Some(Stage::Single),
            (Stage::Escape, b'P' | b'X' | b']' | b'^' | b'_') => Some(Stage::ControlString),
            (Stage::Escape | Stage::Intermediate, 0x20..=0x2F) => Some(Stage::Intermediate),
            (Stage::Control, 0x20..=0x3F) => Some(Stage::Control),
            (Stage::ControlString, 0x08..=0x0D | 0x20..=0x7E | 0x80..=0xFF) => {
                Some(Stage::ControlString)
            }
            _ => None,
        }
    }

    /// Whether the sequence ends with this byte.
    pub(crate) fn ends_with(self, byte: u8) -> bool
        ensures { result ≡ ends_with self byte }
    {
        match self {
            Stage::Text => false,
            Stage::Escape | Stage::Intermediate => matches!(byte, 0x30..=0x7E),
            Stage::Control => matches!(byte, 0x40..=0x7E),
            Stage::Single => matches!(byte, 0x20..=0x7E),
            Stage::ControlString => byte == 0x07,
        }
    }
}
