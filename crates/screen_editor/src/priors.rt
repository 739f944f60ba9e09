//! What Undo goes back to, as the commands of a session say it.

ghost use Rattle.std.specs.Prelude.{◌≡◌, IfOk};
ghost use Rattle.screen_editor.specs.Priors.{prior_behind, priors_of};
ghost use Rattle.edit_commands.specs.Session.{edits_of};

use command_parts::Edit;
use edit_commands::Session;
use std::alloc::{AllocError, Global};

/// What Undo goes back to from the revision that a command makes behind revisions of which each has its own.
fn prior_behind(priors: &[Option<u32>], edit: Edit) -> Option<u32>
    ensures { result ≡ prior_behind priors.now edit }
{
    match edit {
        Edit::New | Edit::Open { .. } => None,
        Edit::Back { r } => *priors.get(r as usize)?,
        Edit::Insert { r, .. }
        | Edit::Delete { r, .. }
        | Edit::Replace { r, .. }
        | Edit::Paste { r, .. }
        | Edit::Join { r, .. }
        | Edit::Cut { r, .. }
        | Edit::Fill { r, .. }
        | Edit::Balance { r }
        | Edit::Many { r, .. } => Some(r),
    }
}

/// What Undo goes back to from each revision of a session.
pub fn priors_of(alloc: Global, session: &Session) -> Result<Vec<Option<u32>>, AllocError>
    ensures { IfOk result (λ priors. priors.items ≡ priors_of (edits_of session.now.revisions)) }
{
    let count = session.count();
    let mut priors = Vec::with_capacity(alloc, count as usize)?;
    for k in 0..count {
        let prior = match session.edit(k) {
            Some(edit) => prior_behind(&priors, edit),
            None => None,
        };
        priors.push(prior)?;
    }
    Ok(priors)
}
