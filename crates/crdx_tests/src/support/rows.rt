//! Tables: texts with a row on a line or two, and what tries their rows.
//!
//! The head of a table says how many rows it has, and what their cells are:
//!
//! ```text
//! 2 rows: name | schema | out
//! @LIST | {"type":"array","items":{"type":"boolean"}}
//! a list | @LIST | V17 ""
//! two properties
//!     | {"type":"object","properties":{"a":{},
//!     "b":{}}} | V01 "/properties/a"
//!     > V01 "/properties/b"
//! ```
//!
//! A line that begins with four spaces belongs to the row above it: after `| ` it has more cells, after `> ` it is a line of standard
//! output, and after `! ` one of standard error; any other goes on with the last cell. What a cell under `out` or `lines` has is the
//! first of the lines that others have after `> `. A cell, or such a line, that is `@NAME` has the text of that row, or of that
//! document (`documents.rt`). `-` is an empty text, and `none` is what the code makes of it. ␊, ␍, ␉, ␠ and ␡ stand for the characters
//! that one does not see, and ␄ at the end of a line says that it has no end. A line that begins with `// ` is a comment.
use crate::support::documents::document;
use crate::support::report::Report;
use std::alloc::{AllocError, Global};
use std::cell::Cell;
use std::process::Abort;
use std::test::Fail;

/// A row of a table: its name, its other cells, and the lines of standard output and of standard error.
#[derive(Drop)]
pub struct Row {
    /// What its cells are.
    head: String,
    name: String,
    cells: Vec<String>,
    out: String,
    err: String,
    /// Whether a cell was asked for that is not there, or has another form.
    is_misread: Cell<bool>,
}

impl Row {
    pub fn name(&self) -> &str {
        self.name.as_str()
    }

    /// The text of the cell under this word of the head. Where there is none, the row fails.
    pub fn text(&self, column: &str) -> &str {
        for (place, word) in self.head.split(" | ").enumerate() {
            if word == column {
                return self.cell(place);
            }
        }
        self.is_misread.set(true);
        ""
    }

    fn cell(&self, place: usize) -> &str {
        match self.cells.get(place) {
            Some(cell) => cell.as_str(),
            None => "",
        }
    }

    /// As `text`, of a cell that may say `none`.
    pub fn optional(&self, column: &str) -> Option<&str> {
        match self.text(column) {
            "none" => None,
            text => Some(text),
        }
    }

    /// The number in the cell under this word of the head. Where it has none, the row fails.
    pub fn number(&self, column: &str) -> u64 {
        match self.text(column).parse::<u64>() {
            Ok(number) => number,
            Err(_) => {
                self.is_misread.set(true);
                0
            }
        }
    }

    /// As `number`, of what is counted.
    pub fn count(&self, column: &str) -> usize {
        match self.text(column).parse::<usize>() {
            Ok(count) => count,
            Err(_) => {
                self.is_misread.set(true);
                0
            }
        }
    }

    /// As `number`, of 32 bits.
    pub fn small(&self, column: &str) -> u32 {
        match self.text(column).parse::<u32>() {
            Ok(number) => number,
            Err(_) => {
                self.is_misread.set(true);
                0
            }
        }
    }

    /// Whether the cell under this word of the head says `yes`. Where it says neither that nor `no`, the row fails.
    pub fn is(&self, column: &str) -> bool {
        match self.text(column) {
            "yes" => true,
            "no" => false,
            _ => {
                self.is_misread.set(true);
                false
            }
        }
    }

    /// The lines of standard output, each with its end.
    pub fn out(&self) -> &str {
        self.out.as_str()
    }

    /// The lines of standard error, each with its end.
    pub fn err(&self) -> &str {
        self.err.as_str()
    }

    /// The text that others name.
    fn meaning(&self) -> &str {
        match self.cells.get(0) {
            Some(cell) => cell.as_str(),
            None => self.out.as_str(),
        }
    }

    fn is_whole(&self) -> bool {
        self.head.split(" | ").count() == self.cells.len()
    }

    /// Whether its next cell is the first of its lines.
    fn is_line_next(&self) -> bool {
        matches!(
            self.head.split(" | ").nth(self.cells.len()),
            Some("out" | "lines")
        )
    }
}

/// What has been read of tables.
#[derive(Drop)]
struct Tables {
    alloc: Global,
    /// What the last head says of cells.
    head: String,
    /// How many rows the heads promise.
    promised: usize,
    rows: Vec<Row>,
    /// The texts that rows name.
    named: Vec<Row>,
    /// Whether the lines that are read are of such a text.
    is_naming: bool,
}

/// The character that a sign stands for.
fn meant(sign: char) -> char {
    match sign {
        '␊' => '\n',
        '␍' => '\r',
        '␉' => '\t',
        '␠' => ' ',
        '␡' => '\u{7f}',
        _ => sign,
    }
}

fn push_meant(text: &mut String, cell: &str) -> Result<(), AllocError> {
    for sign in cell.chars() {
        text.push(meant(sign))?;
    }
    Ok(())
}

fn push_line(lines: &mut String, line: &str) -> Result<(), AllocError> {
    match line.strip_suffix('␄') {
        Some(cut) => push_meant(lines, cut),
        None => {
            push_meant(lines, line)?;
            lines.push('\n')
        }
    }
}

fn push_cell(row: &mut Row, cell: String) -> Result<(), AllocError> {
    if row.is_line_next() && !cell.is_empty() {
        push_line(&mut row.out, cell.as_str())?;
    }
    Ok(row.cells.push(cell)?)
}

impl Tables {
    fn new(alloc: Global) -> Tables {
        Tables {
            alloc,
            head: String::new(alloc),
            promised: 0,
            rows: Vec::new(alloc),
            named: Vec::new(alloc),
            is_naming: false,
        }
    }

    /// The text that is named so, where it is a name.
    fn named(&self, name: &str) -> Result<Option<&str>, Fail> {
        if !name.starts_with('@') {
            return Ok(None);
        }
        for row in &self.named {
            if row.name.as_str() == name {
                return Ok(Some(row.meaning()));
            }
        }
        match document(name) {
            Some(document) => Ok(Some(document)),
            None => Err(Fail::from("no text has this name")),
        }
    }

    fn cell_of(&self, cell: &str) -> Result<String, Fail> {
        let mut text = String::new(self.alloc);
        match self.named(cell)? {
            Some(named) => text.push_str(named)?,
            None if cell == "-" => {}
            None => push_meant(&mut text, cell)?,
        }
        Ok(text)
    }

    /// The lines that a name stands for, or a line.
    fn lines_of(&self, line: &str) -> Result<String, Fail> {
        let mut lines = String::new(self.alloc);
        match self.named(line)? {
            Some(named) => lines.push_str(named)?,
            None => push_line(&mut lines, line)?,
        }
        Ok(lines)
    }

    /// The row whose lines are read.
    fn last(&mut self) -> Result<&mut Row, Fail> {
        let rows = if self.is_naming {
            &mut self.named
        } else {
            &mut self.rows
        };
        match rows.last_mut() {
            Some(row) => Ok(row),
            None => Err(Fail::from("a line before the first row")),
        }
    }

    fn push_cells(&mut self, cells: &str) -> Result<(), Fail> {
        for cell in cells.split(" | ") {
            let cell = self.cell_of(cell)?;
            push_cell(self.last()?, cell)?;
        }
        Ok(())
    }

    fn push_row(&mut self, name: &str) -> Result<(), AllocError> {
        self.is_naming = name.starts_with('@');
        let name = if name == "-" { "" } else { name };
        let row = Row {
            head: String::from_str(self.alloc, self.head.as_str())?,
            name: String::from_str(self.alloc, name)?,
            cells: Vec::new(self.alloc),
            out: String::new(self.alloc),
            err: String::new(self.alloc),
            is_misread: Cell::new(false),
        };
        if self.is_naming {
            Ok(self.named.push(row)?)
        } else {
            Ok(self.rows.push(row)?)
        }
    }

    /// Goes on with the last cell.
    fn push_more(&mut self, text: &str) -> Result<(), Fail> {
        match self.last()?.cells.last_mut() {
            Some(cell) => Ok(push_meant(cell, text)?),
            None => Err(Fail::from("a line that goes on with no cell")),
        }
    }

    fn go_on(&mut self, text: &str) -> Result<(), Fail> {
        match text.split_once(" | ") {
            Some((text, cells)) => {
                self.push_more(text)?;
                self.push_cells(cells)
            }
            None => self.push_more(text),
        }
    }

    /// A line that belongs to the last row.
    fn push_part(&mut self, text: &str) -> Result<(), Fail> {
        if let Some(cells) = text.strip_prefix("| ") {
            return self.push_cells(cells);
        }
        if let Some(line) = text.strip_prefix("> ") {
            let lines = self.lines_of(line)?;
            return Ok(self.last()?.out.push_str(lines.as_str())?);
        }
        if let Some(line) = text.strip_prefix("! ") {
            let lines = self.lines_of(line)?;
            return Ok(self.last()?.err.push_str(lines.as_str())?);
        }
        self.go_on(text)
    }

    fn push_head(&mut self, rows: &str, cells: &str) -> Result<(), Fail> {
        let rows = rows.parse::<usize>().unwrap_or(usize::MAX);
        self.promised = self.promised.saturating_add(rows);
        let cells = cells.split_once(" | ").unwrap_or(("", ""));
        self.head = String::from_str(self.alloc, cells.1)?;
        Ok(())
    }

    fn push_first_line(&mut self, line: &str) -> Result<(), Fail> {
        if let Some((rows, cells)) = line.split_once(" rows: ") {
            return self.push_head(rows, cells);
        }
        match line.split_once(" | ") {
            Some((name, cells)) => {
                self.push_row(name)?;
                self.push_cells(cells)
            }
            None => Ok(self.push_row(line)?),
        }
    }

    fn push_line(&mut self, line: &str) -> Result<(), Fail> {
        if let Some(text) = line.strip_prefix("    ") {
            return self.push_part(text);
        }
        if line.is_empty() || line.starts_with("// ") {
            return Ok(());
        }
        self.push_first_line(line)
    }

    fn push_table(&mut self, table: &str) -> Result<(), Fail> {
        for line in table.lines() {
            self.push_line(line)?;
        }
        Ok(())
    }
}

fn are_whole(rows: &[Row]) -> bool {
    for row in rows {
        if !row.is_whole() {
            return false;
        }
    }
    true
}

/// The rows of these tables, where there are as many as the heads say, and each has as many cells.
pub fn rows_of(alloc: Global, tables: &[&str]) -> Result<Vec<Row>, Fail> {
    let mut all = Tables::new(alloc);
    for table in tables {
        all.push_table(table)?;
    }
    if all.rows.len() != all.promised || !are_whole(all.rows.as_slice()) {
        return Err(Fail::from("not the rows or the cells that the heads say"));
    }
    Ok(all.rows)
}

/// What the rows of a table are tried by.
pub trait Kind {
    fn attempt(&self, report: &mut Report, alloc: Global, row: &Row) -> Result<(), Fail>;
}

fn try_row<K: Kind>(report: &mut Report, alloc: Global, kind: &K, row: &Row) {
    let ended = match kind.attempt(report, alloc, row) {
        Ok(()) if row.is_misread.get() => {
            Err(Fail::from("a cell has another form, or is not there"))
        }
        ended => ended,
    };
    report.row(row.name(), ended);
}

/// Tries each row of these tables.
pub fn all_rows<K: Kind>(report: &mut Report, alloc: Global, kind: &K, tables: &[&str]) {
    match rows_of(alloc, tables) {
        Ok(rows) => {
            for row in &rows {
                try_row(report, alloc, kind, row);
            }
        }
        Err(fail) => report.row("tables that are not read", Err(fail)),
    }
}

/// As `all_rows`, as a whole test.
pub fn try_tables<K: Kind>(
    rt: &impl Abort,
    alloc: Global,
    kind: &K,
    tables: &[&str],
) -> Result<(), Fail> {
    let mut report = Report::new(alloc);
    all_rows(&mut report, alloc, kind, tables);
    report.end(rt)
}
