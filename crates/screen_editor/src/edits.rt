//! The keys that look for no line break.

ghost use Rattle.screen_editor.specs.declared.key.Key.TheVariants as Keys;
ghost use Rattle.std.specs.Prelude.{◌≡◌, false};
ghost use Rattle.screen_editor.specs.Keys.{looks_for_lines};
ghost use Rattle.screen_editor.specs.Taking.{CarriesOut};

use crate::cut_span::CutSpan;
use crate::fault::KeyFault;
use crate::key::Key;
use crate::workspace::{LONGEST_TEXT, Workspace};
use edit_commands::Command;

impl Workspace {
    /// Takes a key that looks for no line break. What a refused one leaves in the session is only nodes and bytes to
    /// which nothing refers.
    ///
    /// # Errors
    ///
    /// `TooLong` where the text would have more than 2,147,483,647 bytes. Else `Edit`: the session refused the
    /// key's command, or memory was refused.
    pub fn take(&mut self, key: Key) -> Result<(), KeyFault>
        requires { looks_for_lines key ≡ false }
        ensures { CarriesOut key self.old result self.new }
    {
        match key {
            Key::Typed(byte) => self.type_byte(byte),
            Key::EraseBefore => self.erase_before(),
            Key::EraseAt => self.erase_at(),
            Key::Left => self.move_left(),
            Key::Right => self.move_right(),
            Key::Mark => self.mark_here(),
            Key::Cut => self.cut(),
            Key::Paste => self.paste(),
            Key::DropCut => self.forget_cut(),
            Key::Undo => self.undo(),
            Key::Balance => self.balance(),
            Key::LineStart
            | Key::LineEnd
            | Key::Up
            | Key::Down
            | Key::Save
            | Key::Leave
            | Key::Nothing => {
                let _last = self.last();
                Ok(())
            }
        }
    }

    /// Goes to the byte before.
    pub(crate) fn move_left(&mut self) -> Result<(), KeyFault>
        ensures { CarriesOut Keys.Left self.old result self.new }
    {
        let _last = self.last();
        let place = self.place();
        if place > 0 {
            self.move_to(place - 1);
        }
        Ok(())
    }

    /// Goes to the byte after.
    pub(crate) fn move_right(&mut self) -> Result<(), KeyFault>
        ensures { CarriesOut Keys.Right self.old result self.new }
    {
        let _last = self.last();
        let place = self.place();
        if place < self.len() {
            self.move_to(place + 1);
        }
        Ok(())
    }

    /// The mark is set at the place.
    pub(crate) fn mark_here(&mut self) -> Result<(), KeyFault>
        ensures { CarriesOut Keys.Mark self.old result self.new }
    {
        let _last = self.last();
        self.set_mark();
        Ok(())
    }

    /// The latest cut span is no longer kept.
    pub(crate) fn forget_cut(&mut self) -> Result<(), KeyFault>
        ensures { CarriesOut Keys.DropCut self.old result self.new }
    {
        let _last = self.last();
        self.drop_cut();
        Ok(())
    }

    /// A byte is put in at the place.
    pub(crate) fn type_byte(&mut self, byte: u8) -> Result<(), KeyFault>
        ensures { CarriesOut (Keys.Typed byte) self.old result self.new }
    {
        let (last, place) = (self.last(), self.place());
        if self.len() >= LONGEST_TEXT {
            return Err(KeyFault::TooLong);
        }
        let insert = Command::Insert {
            r: last,
            p: place,
            bytes: &[byte],
        };
        self.revise(insert, Some(last), place + 1)
    }

    /// The byte before the place goes out.
    pub(crate) fn erase_before(&mut self) -> Result<(), KeyFault>
        ensures { CarriesOut Keys.EraseBefore self.old result self.new }
    {
        let (last, place) = (self.last(), self.place());
        if place == 0 {
            return Ok(());
        }
        let delete = Command::Delete {
            r: last,
            p: place - 1,
            n: 1,
        };
        self.revise(delete, Some(last), place - 1)
    }

    /// The byte at the place goes out.
    pub(crate) fn erase_at(&mut self) -> Result<(), KeyFault>
        ensures { CarriesOut Keys.EraseAt self.old result self.new }
    {
        let (last, place) = (self.last(), self.place());
        if place >= self.len() {
            return Ok(());
        }
        let delete = Command::Delete {
            r: last,
            p: place,
            n: 1,
        };
        self.revise(delete, Some(last), place)
    }

    /// The text goes back to the one before its last change.
    pub(crate) fn undo(&mut self) -> Result<(), KeyFault>
        ensures { CarriesOut Keys.Undo self.old result self.new }
    {
        let last = self.last();
        let Some(back) = self.prior(last) else {
            return Ok(());
        };
        let prior = self.prior(back);
        let place = self.place().min(self.len_of(back));
        self.revise(Command::Back { r: back }, prior, place)
    }

    /// The rope of the text is balanced.
    pub(crate) fn balance(&mut self) -> Result<(), KeyFault>
        ensures { CarriesOut Keys.Balance self.old result self.new }
    {
        let (last, place) = (self.last(), self.place());
        self.revise(Command::Balance { r: last }, Some(last), place)
    }

    /// The bytes of the latest cut span are put in at the place.
    pub(crate) fn paste(&mut self) -> Result<(), KeyFault>
        ensures { CarriesOut Keys.Paste self.old result self.new }
    {
        let (last, place) = (self.last(), self.place());
        let Some(span) = self.latest_cut() else {
            return Ok(());
        };
        if span.len > LONGEST_TEXT - self.len() {
            return Err(KeyFault::TooLong);
        }
        let paste = Command::Paste {
            r: last,
            p: place,
            q: span.revision,
            i: span.start,
            n: span.len,
        };
        self.revise(paste, Some(last), place + span.len)
    }

    /// The bytes between the mark and the place go out, and their span is kept.
    pub(crate) fn cut(&mut self) -> Result<(), KeyFault>
        ensures { CarriesOut Keys.Cut self.old result self.new }
    {
        let (last, place) = (self.last(), self.place());
        let Some(mark) = self.mark() else {
            return Ok(());
        };
        if mark == place {
            return Ok(());
        }
        let start = mark.min(place);
        let len = mark.max(place) - start;
        let delete = Command::Delete {
            r: last,
            p: start,
            n: len,
        };
        self.revise(delete, Some(last), start)?;
        self.keep_cut(CutSpan {
            revision: last,
            start,
            len,
        });
        Ok(())
    }
}
