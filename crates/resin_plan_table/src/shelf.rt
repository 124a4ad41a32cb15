//! A keeper of tables in memory that notes its calls. It holds tables of any shape.

ghost use Rattle.std.specs.Prelude.{◌≡◌};
ghost use Rattle.resin_base.specs.Causes.{HasCause};

use resin_base::{
    Bytes, Cell, Cells, Column, Columns, FailList, KeepFault, Kind, Row, Rows, Tables,
};
use resin_table_rows::{Line, cut};
use resin_table_sql::{cell_in, copied, push_cell};
use std::alloc::{AllocError, Global};
use std::mem;

/// A table as it is held.
#[derive(Drop)]
struct Held {
    name: Bytes,
    columns: Columns,
    rows: Vec<Row>,
}

/// Tables, of which listed calls fail.
#[derive(Drop)]
pub(crate) struct Board {
    pub(crate) alloc: Global,
    tables: Vec<Held>,
    /// The numbers of the calls that fail, from 1.
    pub(crate) fail: FailList,
    made: u64,
    // The calls since they were last taken.
    log: Line,
}

fn copied_cells(alloc: Global, cells: &[Cell]) -> Result<Cells, AllocError> {
    let mut copy = Cells::new(alloc);
    for cell in cells {
        copy.push(copied(alloc, cell)?)?;
    }
    Ok(copy)
}

fn copied_row(alloc: Global, row: &Row) -> Result<Row, AllocError> {
    let cells = copied_cells(alloc, row.cells.as_slice())?;
    Ok(Row {
        number: row.number,
        cells,
    })
}

fn column(alloc: Global, name: &[u8], kind: Kind) -> Result<Column, AllocError> {
    let name = Bytes::from_slice(alloc, name)?;
    Ok(Column { name, kind })
}

fn copied_columns(alloc: Global, columns: &[Column]) -> Result<Columns, AllocError> {
    let mut copy = Columns::new(alloc);
    for one in columns {
        copy.push(column(alloc, one.name.as_slice(), one.kind)?)?;
    }
    Ok(copy)
}

fn push_cells(out: &mut Line, cells: &[Cell]) {
    for cell in cells {
        out.push(' ');
        push_cell(out, cell);
    }
}

fn kind_word(kind: Kind) -> &'static str {
    match kind {
        Kind::Integer => ":I",
        Kind::Text => ":T",
    }
}

fn push_columns(out: &mut Line, columns: &[Column]) {
    for column in columns {
        out.push(' ');
        out.push_text_bytes(column.name.as_slice());
        out.push_str(kind_word(column.kind));
    }
}

fn push_held_row(out: &mut Line, row: &Row) {
    out.tell("; ", row.number, "");
    push_cells(out, row.cells.as_slice());
}

fn push_held(out: &mut Line, table: &Held) {
    out.push('{');
    out.push_text_bytes(table.name.as_slice());
    push_columns(out, table.columns.as_slice());
    for row in table.rows.as_slice() {
        push_held_row(out, row);
    }
    out.push('}');
}

fn kind_of(word: &str) -> Kind {
    if word == "I" {
        Kind::Integer
    } else {
        Kind::Text
    }
}

/// Puts a column last that a word spells; another word is none.
fn push_column(alloc: Global, columns: &mut Columns, word: &str) -> Result<(), AllocError> {
    match word.split_once(':') {
        Some((name, kind)) => columns.push(column(alloc, name.as_bytes(), kind_of(kind))?),
        None => Ok(()),
    }
}

fn columns_of(alloc: Global, words: &str) -> Result<Columns, AllocError> {
    let mut columns = Columns::new(alloc);
    for word in words.split(' ') {
        push_column(alloc, &mut columns, word)?;
    }
    Ok(columns)
}

/// A table without rows.
fn new_table(alloc: Global, name: &[u8], columns: Columns) -> Result<Held, AllocError> {
    let name = Bytes::from_slice(alloc, name)?;
    Ok(Held {
        name,
        columns,
        rows: Vec::new(alloc),
    })
}

/// The cells that words spell; one behind `#` is none.
fn cells_of(alloc: Global, words: &str) -> Result<Cells, AllocError> {
    let mut cells = Cells::new(alloc);
    for word in words.split(' ') {
        if !word.starts_with('#') {
            cells.push(cell_in(alloc, word)?)?;
        }
    }
    Ok(cells)
}

/// The number that words spell behind `#`.
fn number_of(words: &str) -> Option<u64> {
    let digits = words.split(' ').find_map(|word| word.strip_prefix('#'))?;
    digits.parse::<u64>().ok()
}

fn next_number(rows: &[Row]) -> Option<u64> {
    let last = match rows.last() {
        Some(row) => row.number,
        None => 0,
    };
    if last < 9_223_372_036_854_775_807 {
        Some(last + 1)
    } else {
        None
    }
}

impl Held {
    /// Where a row stands; their number where it isn't there.
    fn row_place(&self, number: u64) -> usize {
        for i in 0..self.rows.len() {
            if self.rows[i].number == number {
                return i;
            }
        }
        self.rows.len()
    }

    /// Puts a row last, if its cells fit, and tells its number.
    fn add(&mut self, alloc: Global, cells: &[Cell]) -> Result<Option<u64>, AllocError> {
        if self.columns.as_slice().len() != cells.len() {
            return Ok(None);
        }
        let Some(number) = next_number(self.rows.as_slice()) else {
            return Ok(None);
        };
        let cells = copied_cells(alloc, cells)?;
        self.rows.push(Row { number, cells })?;
        Ok(Some(number))
    }

    /// Sets the cells of a row, if it is there and they fit.
    fn set(&mut self, alloc: Global, number: u64, cells: &[Cell]) -> Result<bool, AllocError> {
        let k = self.row_place(number);
        if k >= self.rows.len() || self.columns.as_slice().len() != cells.len() {
            return Ok(false);
        }
        let cells = copied_cells(alloc, cells)?;
        self.rows[k].cells = cells;
        Ok(true)
    }

    /// Takes a row out, if it is there.
    fn take_out(&mut self, number: u64) -> bool {
        let k = self.row_place(number);
        if k >= self.rows.len() {
            return false;
        }
        let _row = self.rows.remove(k);
        true
    }
}

impl Board {
    fn new(alloc: Global) -> Board {
        Board {
            alloc,
            tables: Vec::new(alloc),
            fail: FailList::new(alloc),
            made: 0,
            log: Line::new(alloc),
        }
    }

    pub(crate) fn put_table(&mut self, field: &str) -> Result<(), AllocError> {
        let (name, words) = cut(field, ' ');
        let columns = columns_of(self.alloc, words)?;
        self.tables
            .push(new_table(self.alloc, name.as_bytes(), columns)?)?;
        Ok(())
    }

    pub(crate) fn put_row(&mut self, field: &str) -> Result<(), AllocError> {
        let cells = cells_of(self.alloc, field)?;
        if let Some(table) = self.tables.last_mut() {
            let next = next_number(table.rows.as_slice());
            let number = number_of(field).or(next).unwrap_or(0);
            table.rows.push(Row { number, cells })?;
        }
        Ok(())
    }

    /// Adds the tables with their rows.
    pub(crate) fn push_tables(&self, out: &mut Line) {
        for table in self.tables.as_slice() {
            push_held(out, table);
        }
    }

    /// The calls since they were last taken.
    pub(crate) fn take_log(&mut self) -> Result<String, AllocError> {
        mem::replace(&mut self.log, Line::new(self.alloc)).end()
    }

    /// Where a table stands; their number where it isn't there.
    fn place(&self, name: &[u8]) -> usize {
        for i in 0..self.tables.len() {
            if self.tables[i].name.as_slice() == name {
                return i;
            }
        }
        self.tables.len()
    }

    fn push_call(&mut self, call: &str, name: &[u8]) {
        self.log.push_word(call);
        self.log.push(' ');
        self.log.push_text_bytes(name);
    }

    /// Begins a call: whether it fails.
    fn begin(&mut self, call: &str, name: &[u8]) -> Result<(), KeepFault> {
        self.made = self.made.saturating_add(1);
        self.push_call(call, name);
        if self.fail.lists(self.made) {
            self.log.push_str(" failed;");
            return Err(KeepFault::Failed);
        }
        Ok(())
    }

    fn push_whether(&mut self, was: bool) {
        self.log.push_str(if was { " true;" } else { " false;" });
    }

    fn add_table(&mut self, name: &[u8], columns: &Columns) -> Result<(), AllocError> {
        let columns = copied_columns(self.alloc, columns.as_slice())?;
        self.tables.push(new_table(self.alloc, name, columns)?)?;
        Ok(())
    }

    fn made_table(&mut self, name: &[u8], columns: &Columns) -> Result<bool, KeepFault> {
        self.begin("create", name)?;
        push_columns(&mut self.log, columns.as_slice());
        let is_new = self.place(name) >= self.tables.len();
        if is_new {
            self.add_table(name, columns)?;
        }
        self.push_whether(is_new);
        Ok(is_new)
    }

    fn told_columns(&mut self, name: &[u8]) -> Result<Option<Columns>, KeepFault> {
        self.begin("columns", name)?;
        let i = self.place(name);
        if i >= self.tables.len() {
            self.log.push_str(" none;");
            return Ok(None);
        }
        self.log.push(';');
        Ok(Some(copied_columns(self.alloc, self.tables[i].columns.as_slice())?))
    }

    fn copied_rows(&self, i: usize) -> Result<Rows, AllocError> {
        let mut rows = Rows::new(self.alloc);
        if i < self.tables.len() {
            for row in self.tables[i].rows.as_slice() {
                rows.push(copied_row(self.alloc, row)?)?;
            }
        }
        Ok(rows)
    }

    fn told_rows(&mut self, name: &[u8]) -> Result<Rows, KeepFault> {
        self.begin("rows", name)?;
        self.log.push(';');
        Ok(self.copied_rows(self.place(name))?)
    }

    fn add_row(&mut self, name: &[u8], cells: &Cells) -> Result<Option<u64>, AllocError> {
        let i = self.place(name);
        if i < self.tables.len() {
            self.tables[i].add(self.alloc, cells.as_slice())
        } else {
            Ok(None)
        }
    }

    fn added_row(&mut self, name: &[u8], cells: &Cells) -> Result<Option<u64>, KeepFault> {
        self.begin("insert", name)?;
        push_cells(&mut self.log, cells.as_slice());
        let number = self.add_row(name, cells)?;
        match number {
            Some(number) => self.log.tell(" ", number, ";"),
            None => self.log.push_str(" none;"),
        }
        Ok(number)
    }

    fn set_row(&mut self, name: &[u8], row: u64, cells: &Cells) -> Result<bool, AllocError> {
        let i = self.place(name);
        if i < self.tables.len() {
            self.tables[i].set(self.alloc, row, cells.as_slice())
        } else {
            Ok(false)
        }
    }

    fn changed_row(&mut self, name: &[u8], row: u64, cells: &Cells) -> Result<bool, KeepFault> {
        self.begin("update", name)?;
        self.log.tell(" ", row, ":");
        push_cells(&mut self.log, cells.as_slice());
        let was = self.set_row(name, row, cells)?;
        self.push_whether(was);
        Ok(was)
    }

    fn taken_row(&mut self, name: &[u8], row: u64) -> Result<bool, KeepFault> {
        self.begin("delete", name)?;
        self.log.tell(" ", row, "");
        let i = self.place(name);
        let was = i < self.tables.len() && self.tables[i].take_out(row);
        self.push_whether(was);
        Ok(was)
    }
}

/// Tables in memory, which count how often a call failed.
#[derive(Drop)]
pub(crate) struct Shelf {
    pub(crate) board: Board,
    faults: u64,
}

impl Shelf {
    pub(crate) fn new(alloc: Global) -> Shelf {
        Shelf {
            board: Board::new(alloc),
            faults: 0,
        }
    }

    // Counts a call's fault.
    fn counted<A>(&mut self, answer: Result<A, KeepFault>) -> Result<A, KeepFault>
        ensures same { result ≡ answer }
        ensures cause { HasCause self.old.faults self.new.faults result }
    {
        if let Err(KeepFault::Failed) = &answer {
            self.faults = self.faults.saturating_add(1);
        }
        answer
    }
}

impl Tables for Shelf {
    ghost use Rattle.std.specs.Prelude.{None};

    ghost stored = { λ _. None };

    ghost faults = { λ s. s.faults };

    ghost answers = { λ _. None };

    ghost whole = { λ _. tt };

    fn create(&mut self, name: &[u8], columns: &Columns) -> Result<bool, KeepFault> {
        let answer = self.board.made_table(name, columns);
        self.counted(answer)
    }

    fn columns(&mut self, name: &[u8]) -> Result<Option<Columns>, KeepFault> {
        let answer = self.board.told_columns(name);
        self.counted(answer)
    }

    fn rows(&mut self, name: &[u8]) -> Result<Rows, KeepFault> {
        let answer = self.board.told_rows(name);
        self.counted(answer)
    }

    fn insert(&mut self, name: &[u8], cells: &Cells) -> Result<Option<u64>, KeepFault> {
        let answer = self.board.added_row(name, cells);
        self.counted(answer)
    }

    fn update(&mut self, name: &[u8], row: u64, cells: &Cells) -> Result<bool, KeepFault> {
        let answer = self.board.changed_row(name, row, cells);
        self.counted(answer)
    }

    fn delete(&mut self, name: &[u8], row: u64) -> Result<bool, KeepFault> {
        let answer = self.board.taken_row(name, row);
        self.counted(answer)
    }
}
