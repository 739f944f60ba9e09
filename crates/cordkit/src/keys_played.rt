//! The editor behind the keys that a journal has.

use crate::few_rows::{FewRows, rows_of_terminal};
use crate::hint::hint;
use crate::saved_before::{is_image_of, is_image_onto};
use cord_tools::{
    Status, ToolFault, only_look, run_kept, run_kept_onto, run_typed, run_typed_onto,
};
use image_files::{Faults, ImageFile, Input, STANDARD_INPUT, told};
use key_journal::Kept;
use lazy_file::Sources;
use session_files::{Journal, SyncedFile};
use std::io::{BufReader, IsTerminal, StdinLock};
use terminal_keys::TerminalKeys;

/// Keys that a terminal gives by blocks, each kept before it is taken.
type TypedKeys<'a> = Kept<TerminalKeys<BufReader<Input<'a, StdinLock<'a>>>>, SyncedFile<'a>>;

/// A session whose keys are kept in a journal: its image has this name.
#[derive(Clone, Copy)]
pub struct Keyed<'a> {
    pub rt: &'a HostRuntime,
    pub faults: &'a Faults,
    pub name: &'a str,
    pub journal: &'a Journal<'a>,
}

impl<'a> Keyed<'a> {
    /// Whether its image is the one of its keys, if they make one: a session that was saved may have ended before they were
    /// taken away.
    pub fn is_saved<S: Sources + Drop>(self, sources: S) -> Result<bool, ToolFault> {
        let keys = self.journal.keys();
        if only_look(keys) {
            return Ok(false);
        }
        is_image_of(self.rt, self.name, keys, sources)
    }

    /// Whether its image is the one that its keys make over an older one, if they make one.
    pub fn is_saved_onto<S: Sources + Drop>(
        self,
        older: Vec<u8>,
        sources: S,
    ) -> Result<bool, ToolFault> {
        let keys = self.journal.keys();
        if only_look(keys) {
            return Ok(false);
        }
        is_image_onto(self.rt, self.name, older, keys, sources)
    }

    /// The keys of the terminal, read by blocks and kept.
    fn typed(self) -> Result<TypedKeys<'a>, ToolFault> {
        let input = self.faults.input(STANDARD_INPUT, self.rt.reader());
        let reader = BufReader::new(self.rt.alloc(), input).map_err(told)?;
        Ok(Kept::new(TerminalKeys::new(reader), self.journal.synced()))
    }

    /// Edits behind the keys that it has, and keeps those that follow. On a terminal the first screen names the image.
    pub fn edit<S: Sources + Drop>(
        self,
        sources: S,
        image: &mut ImageFile<'_>,
    ) -> Result<Status, ToolFault> {
        let mut screen = self.faults.output(self.rt);
        if self.rt.stdin().is_terminal() {
            let hint = hint(self.rt.alloc(), self.name)?;
            let mut screen = FewRows::new(self.rt.alloc(), screen, rows_of_terminal(self.rt));
            return run_typed(
                self.rt.alloc(),
                sources,
                Some(hint.as_str()),
                self.journal.keys(),
                &mut self.typed()?,
                &mut screen,
                image,
            );
        }
        let input = self.faults.input(STANDARD_INPUT, self.rt.reader());
        run_kept(
            self.rt.alloc(),
            sources,
            self.journal.keys(),
            &mut Kept::new(TerminalKeys::new(input), self.journal.synced()),
            &mut screen,
            image,
        )
    }

    /// Goes on with an older image behind the keys that it has, and keeps those that follow.
    pub fn edit_onto<S: Sources + Drop>(
        self,
        older: Vec<u8>,
        sources: S,
        image: &mut ImageFile<'_>,
    ) -> Result<Status, ToolFault> {
        let mut screen = self.faults.output(self.rt);
        if self.rt.stdin().is_terminal() {
            let hint = hint(self.rt.alloc(), self.name)?;
            let mut screen = FewRows::new(self.rt.alloc(), screen, rows_of_terminal(self.rt));
            return run_typed_onto(
                self.rt.alloc(),
                older,
                sources,
                Some(hint.as_str()),
                self.journal.keys(),
                &mut self.typed()?,
                &mut screen,
                image,
            );
        }
        let input = self.faults.input(STANDARD_INPUT, self.rt.reader());
        run_kept_onto(
            self.rt.alloc(),
            older,
            sources,
            self.journal.keys(),
            &mut Kept::new(TerminalKeys::new(input), self.journal.synced()),
            &mut screen,
            image,
        )
    }
}
