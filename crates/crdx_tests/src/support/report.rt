//! What the rows of a test show: what differs in a row is noted, and all rows that failed are printed at the end.
use std::alloc::{AllocError, Global};
use std::cell::Cell;
use std::fmt::{Debug, Display};
use std::io;
use std::io::Eprint;
use std::process::{Abort, Termination};
use std::test::Fail;

/// The rows of one test. A check that fails is noted, and the row goes on. `row` ends a row, and `end` the test.
#[derive(Drop)]
pub struct Report {
    alloc: Global,
    rows: u64,
    /// The checks of the row that is tried.
    checks: u64,
    /// What differs in the row that is tried.
    differences: String,
    /// The rows that failed, each with what differs in it.
    failed: String,
    /// Whether there was no memory for a note.
    is_full: bool,
}

impl Report {
    /// The report of a test that has tried no row yet.
    pub fn new(alloc: Global) -> Report {
        Report {
            alloc,
            rows: 0,
            checks: 0,
            differences: String::new(alloc),
            failed: String::new(alloc),
            is_full: false,
        }
    }

    /// Notes it unless the value is the one that is wanted.
    pub fn is_value<T: PartialEq + Debug>(&mut self, what: &str, found: &T, wanted: &T) {
        self.count_check();
        if *found != *wanted {
            self.note(format!(in self.alloc;
                "{what}:\n    found  {found:?}\n    wanted {wanted:?}"
            ));
        }
    }

    /// Notes it unless the text is the one that is wanted.
    pub fn is_text(&mut self, what: &str, found: &str, wanted: &str) {
        self.is_value(what, &found, &wanted);
    }

    /// Notes it unless the value is shown so.
    pub fn is_shown<T: Debug>(
        &mut self,
        what: &str,
        found: &T,
        wanted: &str,
    ) -> Result<(), AllocError> {
        let found = format!(in self.alloc; "{found:?}")?;
        self.is_text(what, found.as_str(), wanted);
        Ok(())
    }

    /// Notes it unless the number is the one that is wanted.
    pub fn is_number(&mut self, what: &str, found: u64, wanted: u64) {
        self.is_value(what, &found, &wanted);
    }

    /// Notes it unless it holds.
    pub fn holds(&mut self, what: &str, is: bool) {
        self.count_check();
        if !is {
            self.note(format!(in self.alloc; "{what}: does not hold"));
        }
    }

    /// Notes it, and of which text, unless it holds.
    pub fn holds_of(&mut self, what: &str, text: &str, is: bool) {
        self.count_check();
        if !is {
            self.note(format!(in self.alloc; "{what}: does not hold of {text:?}"));
        }
    }

    fn count_check(&mut self) {
        self.checks = self.checks.saturating_add(1);
    }

    fn note(&mut self, difference: Result<String, AllocError>) {
        let is_kept = self.keep_difference(difference).is_ok();
        self.is_full |= !is_kept;
    }

    fn keep_difference(
        &mut self,
        difference: Result<String, AllocError>,
    ) -> Result<(), AllocError> {
        self.differences.push_str("  ")?;
        self.differences.push_str(difference?.as_str())?;
        Ok(self.differences.push('\n')?)
    }

    /// Ends a row, which has failed where a check did, where nothing was checked, and where it ended early, by an error.
    pub fn row(&mut self, name: &str, ended: Result<(), Fail>) {
        match ended {
            Err(fail) => self.note(ended_early(self.alloc, fail)),
            Ok(()) if self.checks == 0 => {
                self.note(String::from_str(self.alloc, "nothing was checked"));
            }
            Ok(()) => {}
        }
        self.rows = self.rows.saturating_add(1);
        self.checks = 0;
        let is_kept = self.keep_row(name).is_ok();
        self.is_full |= !is_kept;
    }

    /// As `row`, with a name that is made for it.
    pub fn row_of(&mut self, name: Result<String, AllocError>, ended: Result<(), Fail>) {
        self.is_full |= name.is_err();
        match name {
            Ok(name) => self.row(name.as_str(), ended),
            Err(AllocError) => self.row("a row", ended),
        }
    }

    fn keep_row(&mut self, name: &str) -> Result<(), AllocError> {
        if self.differences.is_empty() {
            return Ok(());
        }
        let failed = format!(in self.alloc; "{name}\n{}", self.differences)?;
        self.differences.clear();
        self.failed.push_str(failed.as_str())
    }

    /// Ends the test: fails with all rows that failed, where no row was tried, and where a note was lost.
    pub fn end(mut self, rt: &impl Abort) -> Result<(), Fail> {
        self.keep_row("outside the rows")?;
        if self.rows == 0 {
            self.failed.push_str("no row was tried\n")?;
        }
        if self.is_full {
            self.failed.push_str("there was no memory for a note\n")?;
        }
        assert!(rt;
            self.failed.is_empty(),
            "rows that failed:\n{}",
            self.failed
        );
        Ok(())
    }
}

/// What is noted of a row that ended early.
fn ended_early(alloc: Global, fail: Fail) -> Result<String, AllocError> {
    let error = error_text(alloc, fail)?;
    format!(in alloc; "ended early: {error}")
}

/// The text that a failure writes.
fn error_text(alloc: Global, fail: Fail) -> Result<String, AllocError> {
    let written = Written {
        alloc,
        text: Cell::new(Ok(String::new(alloc))),
    };
    let _status = Err::<(), Fail>(fail).report(&written);
    written.text.into_inner()
}

/// What was written last, in place of standard error.
#[derive(Drop)]
struct Written {
    alloc: Global,
    text: Cell<Result<String, AllocError>>,
}

impl Eprint for Written {
    fn eprint<D: Display + Drop>(&self, value: D) -> io::Result<()> {
        self.text.set(format!(in self.alloc; "{value}"));
        Ok(())
    }

    fn eprintln<D: Display + Drop>(&self, value: D) -> io::Result<()> {
        self.eprint(value)
    }
}
