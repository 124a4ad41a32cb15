//! How the parts of a statement are printed, and why a text has none.

use resin_lstr::{LText, TextFault};
use resin_sql::{Comparison, Condition, Literal, SqlFault, Test, literal_text};
use resin_table_rows::Line;
use resin_table_values::{marked_in, push_marked};
use std::alloc::{AllocError, Global};

/// Prints trees whose literals stand in a text.
#[derive(Clone, Copy)]
pub struct Printer<'a> {
    pub alloc: Global,
    pub text: &'a LText,
}

fn sign_of(operator: Comparison) -> &'static str {
    match operator {
        Comparison::Equal => "=",
        Comparison::NotEqual => "<>",
        Comparison::Less => "<",
        Comparison::LessOrEqual => "<=",
        Comparison::Greater => ">",
        Comparison::GreaterOrEqual => ">=",
    }
}

impl Printer<'_> {
    fn push_labelled(self, out: &mut Line, literal: Literal) {
        let text = literal_text(self.alloc, self.text, literal);
        if let Some(text) = out.taken(text) {
            push_marked(out, &text);
        }
    }

    /// Puts a literal last: its kind or its value, and its bytes, each run behind its set.
    pub fn push_literal(self, out: &mut Line, literal: Literal) {
        match literal {
            Literal::Null => out.push_str("null"),
            Literal::Integer(value, _) => {
                out.push_integer(value);
                out.push(':');
                self.push_labelled(out, literal);
            }
            Literal::Text(_) => {
                out.push_str("text:");
                self.push_labelled(out, literal);
            }
        }
    }

    fn push_test(self, out: &mut Line, test: &Test) {
        match test {
            Test::Compare(column, operator, literal) => {
                out.push_text_bytes(column.as_slice());
                out.push_str(sign_of(*operator));
                self.push_literal(out, *literal);
            }
            Test::Null(column, negated) => {
                out.push_text_bytes(column.as_slice());
                out.push_str(if *negated { " not null" } else { " null" });
            }
        }
    }

    #[cycle(conditions)]
    fn push_condition(self, out: &mut Line, condition: &Condition) {
        match condition {
            Condition::Test(test) => self.push_test(out, test),
            Condition::All(parts) => self.push_parts(out, "all[", parts.as_slice()),
            Condition::Any(parts) => self.push_parts(out, "any[", parts.as_slice()),
        }
    }

    #[cycle(conditions)]
    fn push_parts(self, out: &mut Line, name: &str, parts: &[Condition]) {
        out.push_str(name);
        for part in parts {
            self.push_condition(out, part);
            out.push(';');
        }
        out.push(']');
    }

    /// Puts last what stands behind WHERE, where there is such a part.
    pub fn push_where(self, out: &mut Line, condition: &Option<Condition>) {
        if let Some(condition) = condition {
            out.push_str(" where ");
            self.push_condition(out, condition);
        }
    }
}

/// Puts the number of LIMIT last, where there is one.
pub fn push_limit(out: &mut Line, limit: Option<u64>) {
    if let Some(n) = limit {
        out.tell(" limit ", n, "");
    }
}

/// Puts last why a text is no statement.
pub fn push_fault(out: &mut Line, fault: SqlFault) {
    match fault {
        SqlFault::Bad { offset } => out.tell("bad ", offset, ""),
        SqlFault::Memory => out.push_str("no memory"),
    }
}

// Puts last why a row spells no text.
fn push_text_fault(out: &mut Line, fault: TextFault) {
    match fault {
        TextFault::TooLong => out.push_str("too long"),
        TextFault::Memory => out.note(Err(AllocError)),
    }
}

/// The line of a row whose field spells a labelled text: what is put there of a printer of that text, or why there is no text.
pub fn answered<A: FnOnce(&mut Line, Printer<'_>)>(
    alloc: Global,
    field: &str,
    push_answer: A,
) -> Result<String, AllocError>
    requires { A.IsAlwaysCallable push_answer }
{
    let mut out = Line::new(alloc);
    match marked_in(alloc, field) {
        Ok(text) => push_answer(&mut out, Printer { alloc, text: &text }),
        Err(fault) => push_text_fault(&mut out, fault),
    }
    out.end()
}
