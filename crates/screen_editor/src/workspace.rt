//! A session as it is edited.

ghost use Rattle.std.specs.Prelude.{◌≡◌, ◌≤◌, ◌<◌, IfOk, IfSome, None, Some};
ghost use Rattle.std.specs.Prelude.{ℕ, ◌∷◌, drop, get_or, length, slice_get, take};
ghost use Rattle.rope_node.specs.Denotes.{IsRope};
ghost use Rattle.edit_commands.specs.Refusals.{result_len};
ghost use Rattle.edit_commands.specs.Session.{HoldsHistory, length_at, session_table};
ghost use Rattle.screen_editor.specs.declared.cut_span.TheConstants.{MOST_CUTS};
ghost use Rattle.screen_editor.specs.declared.workspace.TheConstants.{LONGEST_TEXT};
ghost use Rattle.screen_editor.specs.Editing.{IsCutSpan, IsEditing, current_len, current_root, last_of};
ghost use Rattle.screen_editor.specs.Opening.{at_first_byte};
ghost use Rattle.screen_editor.specs.Priors.{prior_behind};
ghost use Rattle.screen_editor.specs.Recorded.{edit_at};
ghost use Rattle.screen_editor.specs.Taking.{IsInOrder, RevisesOrNot};

use crate::cut_span::{CutSpan, MOST_CUTS};
use crate::fault::KeyFault;
use crate::priors::priors_of;
use circular_buffer::HeapCircularBuffer;
use command_parts::Roots;
use edit_commands::{Command, EditFault, Session};
use rope_node::{Rope, rope_len};
use std::alloc::{AllocError, Global};
use std::marker::Model;

/// The most bytes of a text.
pub(crate) const LONGEST_TEXT: u64 = 2_147_483_647;

/// A session as it is edited: all that an editor holds but its sources.
#[derive(Drop)]
pub struct Workspace {
    session: Session,
    /// Of each revision, the one that Undo goes back to.
    priors: Vec<Option<u32>>,
    place: u64,
    mark: Option<u64>,
    /// The latest first.
    cuts: HeapCircularBuffer<CutSpan>,
    message: Option<KeyFault>,
}

impl Model for Workspace {
    ghost use Rattle.std.specs.Prelude.{◌≡◌};
    ghost use Rattle.screen_editor.specs.declared.cut_span.TheConstants.{MOST_CUTS};
    ghost use Rattle.screen_editor.specs.Editing.{Editing, IsEditing};

    ghost Value = { Editing };

    ghost view = { λ a. record {
      session = a.session;
      priors = a.priors.items;
      place = a.place;
      mark = a.mark;
      cuts = a.cuts.items;
      message = a.message;
    } };

    ghost invariant = { λ a. IsEditing (record {
      session = a.session;
      priors = a.priors.items;
      place = a.place;
      mark = a.mark;
      cuts = a.cuts.items;
      message = a.message;
    })
        × (a.cuts.capacity ≡ MOST_CUTS) };
}

impl Workspace {
    /// A session's last revision, at its first byte.
    ///
    /// # Errors
    ///
    /// `AllocError` where memory is refused.
    #[tactic(auto, using(crate::proofs::OpenedSessions::opened_kept))]
    pub fn over(alloc: Global, session: Session) -> Result<Workspace, AllocError>
        requires some { 1 ≤ length session.revisions }
        requires short { (k : ℕ) → k < length session.revisions → length_at session k ≤ LONGEST_TEXT }
        ensures { IfOk result (λ made. made ≡ at_first_byte session) }
    {
        // The session keeps its rules, as its count says.
        let _revisions = session.count();
        let priors = priors_of(alloc, &session)?;
        let cuts = HeapCircularBuffer::with_capacity(alloc, MOST_CUTS)?;
        Ok(Workspace {
            session,
            priors,
            place: 0,
            mark: None,
            cuts,
            message: None,
        })
    }

    /// The session, with every revision.
    pub fn session(&self) -> &Session
        ensures value { result.now ≡ self.now.session }
        ensures kept { IsEditing self.now }
    {
        &self.session
    }

    /// The place in the current text.
    pub fn place(&self) -> u64
        ensures value { result ≡ self.now.place }
        ensures inside { result ≤ current_len self.now }
    {
        self.place
    }

    /// The number of the current revision.
    pub fn last(&self) -> u32
        ensures value { result ≡ last_of self.now }
        ensures kept { IsEditing self.now }
        ensures history { HoldsHistory self.now.session }
    {
        self.session.count() - 1
    }

    /// The root of the current revision.
    #[tactic(auto, using(crate::proofs::CurrentTexts::current_is_rope))]
    pub fn root(&self) -> Rope
        ensures value { result ≡ current_root self.now }
        ensures rope { IsRope (session_table self.now.session) result }
    {
        Roots::root(&self.session, self.last())
    }

    /// The length of the current text.
    pub fn len(&self) -> u64
        ensures value { result ≡ current_len self.now }
        ensures short { result ≤ LONGEST_TEXT }
    {
        rope_len(self.session.space(), self.root())
    }

    /// Why the last key was refused, where it was.
    pub fn message(&self) -> Option<KeyFault>
        ensures { result ≡ self.now.message }
    {
        self.message
    }

    /// Goes to a place of the current text.
    pub fn move_to(&mut self, place: u64)
        requires { place ≤ current_len self.old }
        ensures { self.new ≡ record self.old { place = place } }
    {
        self.place = place;
    }

    /// Sets the message.
    pub fn tell(&mut self, message: Option<KeyFault>)
        ensures { self.new ≡ record self.old { message = message } }
    {
        self.message = message;
    }

    /// The length of the text of revision `k`.
    #[tactic(auto, using(crate::proofs::CurrentTexts::root_is_rope))]
    pub(crate) fn len_of(&self, k: u32) -> u64
        requires { k < length self.now.session.revisions }
        ensures value { result ≡ length_at self.now.session k }
        ensures short { result ≤ LONGEST_TEXT }
    {
        rope_len(self.session.space(), Roots::root(&self.session, k))
    }

    /// The revision that Undo goes back to from revision `k`.
    pub(crate) fn prior(&self, k: u32) -> Option<u32>
        requires { k < length self.now.session.revisions }
        ensures value { result ≡ get_or self.now.priors k None }
        ensures earlier { IfSome result (λ j. j < k) }
    {
        self.priors[k as usize]
    }

    /// The mark, where one is set.
    pub(crate) fn mark(&self) -> Option<u64>
        ensures value { result ≡ self.now.mark }
        ensures inside { IfSome result (λ m. m ≤ current_len self.now) }
    {
        self.mark
    }

    /// Sets the mark at the place.
    pub(crate) fn set_mark(&mut self)
        ensures { self.new ≡ record self.old { mark = Some self.old.place } }
    {
        self.mark = Some(self.place);
    }

    /// The latest cut span.
    pub(crate) fn latest_cut(&self) -> Option<CutSpan>
        ensures value { result ≡ slice_get self.now.cuts 0 }
        ensures inside { IfSome result (IsCutSpan self.now.session) }
    {
        self.cuts.front().copied()
    }

    /// Puts a span in front of the cut spans. The oldest of 16 falls out.
    pub(crate) fn keep_cut(&mut self, span: CutSpan)
        requires { IsCutSpan self.old.session span }
        ensures { self.new ≡ record self.old { cuts = take MOST_CUTS (span ∷ self.old.cuts) } }
    {
        self.cuts.push_front(span);
    }

    /// Takes the latest cut span away.
    pub(crate) fn drop_cut(&mut self)
        ensures { self.new ≡ record self.old { cuts = drop 1 self.old.cuts } }
    {
        self.cuts.pop_front();
    }

    /// One revision more, by a command in order. Room for its prior is made before.
    pub(crate) fn revise(
        &mut self,
        command: Command<'_>,
        prior: Option<u32>,
        place: u64,
    ) -> Result<(), KeyFault>
        requires order { IsInOrder self.old.session command }
        requires short { result_len self.old.session command ≤ LONGEST_TEXT }
        requires place { place ≤ result_len self.old.session command }
        requires prior { IfSome prior (λ j. j < length self.old.session.revisions) }
        requires named { prior ≡ prior_behind self.old.priors (edit_at 0 command) }
        ensures done { RevisesOrNot command.entry prior place self.old result self.new }
        ensures history { HoldsHistory self.new.session }
    {
        // The session keeps its rules, as its count says, before the command and after it.
        let _before = self.session.count();
        if self.priors.try_reserve(1).is_err() {
            return Err(KeyFault::Edit(EditFault::Memory));
        }
        let applied = self.session.apply(command);
        let _after = self.session.count();
        if let Err(fault) = applied {
            return Err(KeyFault::Edit(fault));
        }
        let done = self.priors.push(prior);
        prove!(done.is_ok());
        self.place = place;
        self.mark = None;
        Ok(())
    }
}
