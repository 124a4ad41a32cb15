//! Answers in words.

use resin_sql_more::{MoreAnswer, MoreStop};
use resin_table_rows::Line;
use resin_table_sql::{push_stop, push_stored};

fn push_rows(out: &mut Line, answer: &MoreAnswer) {
    for name in answer.names.as_slice() {
        out.push_text_bytes(name.as_slice());
        out.push(' ');
    }
    out.push(':');
    for row in answer.rows.as_slice() {
        push_stored(out, row);
    }
    out.tell(" cost ", answer.scanned, "");
    out.tell(" chosen ", answer.chosen, "");
}

pub(crate) fn push_answer(out: &mut Line, answer: &Result<MoreAnswer, MoreStop>) {
    match answer {
        Ok(answer) => push_rows(out, answer),
        Err(stop) => push_stop(out, *stop),
    }
}
