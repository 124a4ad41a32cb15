//! Answers in words.

use resin_base::{Names, StoredRows};
use resin_plan::{SqlAnswer, SqlResult};
use resin_sql::SqlStop;
use resin_table_rows::Line;
use resin_table_sql::{push_stop, push_stored};

fn push_names(out: &mut Line, names: &Names) {
    out.push_str("rows");
    for name in names.as_slice() {
        out.push(' ');
        out.push_text_bytes(name.as_slice());
    }
}

fn push_rows(out: &mut Line, names: &Names, rows: &StoredRows) {
    push_names(out, names);
    out.push(':');
    for row in rows.as_slice() {
        push_stored(out, row);
    }
}

fn push_found(out: &mut Line, found: &SqlResult) {
    match found {
        SqlResult::Count(count) => out.tell("count ", *count, ""),
        SqlResult::Rows(names, rows) => push_rows(out, names, rows),
    }
}

fn push_carried_out(out: &mut Line, answer: &SqlAnswer) {
    push_found(out, &answer.result);
    out.tell(" of ", answer.scanned, "");
}

pub(crate) fn push_answer(out: &mut Line, answer: &Result<SqlAnswer, SqlStop>) {
    match answer {
        Ok(answer) => push_carried_out(out, answer),
        Err(stop) => push_stop(out, *stop),
    }
}
