//! What takes lines.

ghost use Rattle.std.specs.Prelude.{◌≡◌, ℕ, List, [], Bool, IfOk};
ghost use Rattle.line_server.specs.Turns.{TakesNext};

use std::alloc::AllocError;

/// What follows a line.
#[derive(Clone, Copy, Debug, PartialEq, Eq)]
pub enum Next {
    /// It is kept, and then answered.
    Keep,
    /// It is answered.
    Answer,
    /// It ends the run, and is answered by none.
    End,
}

/// What takes lines, one after the other, and answers each.
pub trait TakesLines {
    /// What a line does: the value before, the line, whether it is kept, its answer, and the value behind.
    ghost step: { Self → List ℕ → Bool → List ℕ → Self → Type 0 };

    /// The lines that end a run.
    ghost ends: { List ℕ → Type 0 };

    /// Takes a line, and puts its answer into room that is empty.
    fn take(&mut self, line: &[u8], answer: &mut Vec<u8>) -> Result<Next, AllocError>
        requires { answer.now.items ≡ [] }
        ensures { IfOk result (λ next. TakesNext step ends self.old line.now next answer.new.items self.new) };
}
