//! Reads a program from each line, as code behind `<?php `, or, behind `=`, as a whole source text; `\n` and `\r` stand for
//! those bytes. Behind `expression: ` it reads the expression with which such a text begins. A line `A ~ B` asks whether two
//! texts have the same tree; brackets round an expression leave no trace in one. A line `~N~a~b~c~d~e` is read as a, N times b,
//! c, N times d, and e. The input, and the output, which was worked out by hand from the PHP manual with its table of operators
//! and this project's profile, are the table of the tests of programs and expressions.
#![tactic(auto)]

ghost use Rattle.std.specs.Prelude.{◌≤◌, length};

mod spelling;

use resin_lex::{Expr, ParseFault, Program, tokens};
use resin_parse::program;
use resin_parse_expr::expression;
use spelling::Spelling;
use std::alloc::{AllocError, Global};
use std::io;

/// What reading an expression comes to: the tree and the count of its tokens, or the fault.
type Found = Result<(Expr, usize), ParseFault>;

/// The text that a line stands for.
fn unescaped(alloc: Global, line: &str) -> Result<String, AllocError> {
    let mut out = String::new(alloc);
    let mut escaped = false;
    for c in line.chars() {
        if escaped {
            match c {
                'n' => out.push('\n')?,
                'r' => out.push('\r')?,
                _ => out.push(c)?,
            }
            escaped = false;
        } else if c == '\\' {
            escaped = true;
        } else {
            out.push(c)?;
        }
    }
    Ok(out)
}

/// The source text that a line stands for.
fn source_text(alloc: Global, line: &str) -> Result<String, AllocError> {
    let source = unescaped(alloc, line)?;
    match source.as_str().strip_prefix("=") {
        Some(whole) => format!(in alloc; "{whole}"),
        None => format!(in alloc; "<?php {source}"),
    }
}

fn read(alloc: Global, line: &str) -> Result<Result<Program, ParseFault>, AllocError> {
    let text = source_text(alloc, line)?;
    if text.len() > 16_777_216 {
        return Ok(Err(ParseFault::Memory));
    }
    Ok(program(alloc, text.as_bytes()))
}

fn read_expression(alloc: Global, line: &str) -> Result<Found, AllocError> {
    let text = source_text(alloc, line)?;
    if text.len() > 16_777_216 {
        return Ok(Err(ParseFault::Memory));
    }
    match tokens(alloc, text.as_bytes()) {
        Ok(list) => Ok(expression(alloc, &list, 0, 0)),
        Err(fault) => Ok(Err(fault)),
    }
}

fn shown_fault(alloc: Global, fault: ParseFault) -> Result<String, AllocError> {
    match fault {
        ParseFault::Syntax { offset } => format!(in alloc; "syntax at {offset}"),
        ParseFault::TooDeep { offset } => format!(in alloc; "too deep at {offset}"),
        ParseFault::Memory => String::from_str(alloc, "no memory"),
    }
}

fn shown_sameness(alloc: Global, a: Spelling, b: Spelling) -> Result<String, AllocError> {
    let (a, b) = (a.finish()?, b.finish()?);
    let words = if a.as_slice() == b.as_slice() {
        "the same tree"
    } else {
        "another tree"
    };
    String::from_str(alloc, words)
}

fn spelled(alloc: Global, program: &Program) -> Spelling {
    let mut out = Spelling::new(alloc);
    spelling::program(&mut out, program);
    out
}

fn spelled_expression(alloc: Global, e: &Expr) -> Spelling {
    let mut out = Spelling::new(alloc);
    spelling::expression(&mut out, e);
    out
}

fn shown(alloc: Global, found: Result<Program, ParseFault>) -> Result<String, AllocError> {
    match found {
        Ok(found) => {
            let count = found.items.len();
            format!(in alloc; "{count} items")
        }
        Err(fault) => shown_fault(alloc, fault),
    }
}

fn shown_expression(alloc: Global, found: Found) -> Result<String, AllocError> {
    match found {
        Ok((_, count)) => format!(in alloc; "{count} tokens"),
        Err(fault) => shown_fault(alloc, fault),
    }
}

fn compared(alloc: Global, left: &str, right: &str) -> Result<String, AllocError> {
    match (read(alloc, left)?, read(alloc, right)?) {
        (Ok(a), Ok(b)) => shown_sameness(alloc, spelled(alloc, &a), spelled(alloc, &b)),
        (Err(fault), _) => shown_fault(alloc, fault),
        (_, Err(fault)) => shown_fault(alloc, fault),
    }
}

/// The spelling of the expression that a line begins with.
fn read_spelling(alloc: Global, line: &str) -> Result<Result<Spelling, ParseFault>, AllocError> {
    match read_expression(alloc, line)? {
        Ok((tree, _)) => Ok(Ok(spelled_expression(alloc, &tree))),
        Err(fault) => Ok(Err(fault)),
    }
}

fn compared_expressions(alloc: Global, left: &str, right: &str) -> Result<String, AllocError> {
    match (read_spelling(alloc, left)?, read_spelling(alloc, right)?) {
        (Ok(a), Ok(b)) => shown_sameness(alloc, a, b),
        (Err(fault), _) => shown_fault(alloc, fault),
        (_, Err(fault)) => shown_fault(alloc, fault),
    }
}

fn push_times(out: &mut String, piece: &str, count: usize) -> Result<(), AllocError> {
    for _ in 0..count {
        out.push_str(piece)?;
    }
    Ok(())
}

fn repeated(alloc: Global, line: &str) -> Result<String, AllocError> {
    let mut out = String::new(alloc);
    let mut count = 0usize;
    for (i, piece) in line.split('~').enumerate() {
        match i {
            0 => count = piece.parse::<usize>().unwrap_or(0),
            2 | 4 => push_times(&mut out, piece, count)?,
            _ => out.push_str(piece)?,
        }
    }
    Ok(out)
}

fn answer_program(alloc: Global, line: &str) -> Result<String, AllocError> {
    if let Some(rest) = line.strip_prefix("~") {
        let source = repeated(alloc, rest)?;
        return shown(alloc, read(alloc, source.as_str())?);
    }
    match line.split_once(" ~ ") {
        Some((left, right)) => compared(alloc, left, right),
        None => shown(alloc, read(alloc, line)?),
    }
}

fn answer_expression(alloc: Global, line: &str) -> Result<String, AllocError> {
    if let Some(rest) = line.strip_prefix("~") {
        let source = repeated(alloc, rest)?;
        return shown_expression(alloc, read_expression(alloc, source.as_str())?);
    }
    match line.split_once(" ~ ") {
        Some((left, right)) => compared_expressions(alloc, left, right),
        None => shown_expression(alloc, read_expression(alloc, line)?),
    }
}

fn answer(alloc: Global, line: &str) -> Result<String, AllocError> {
    match line.strip_prefix("expression: ") {
        Some(rest) => answer_expression(alloc, rest),
        None => answer_program(alloc, line),
    }
}

fn main(rt: HostRuntime) -> io::Result<()> {
    for line in rt.lines(rt.alloc()) {
        let line = line?;
        let text = answer(rt.alloc(), line.as_str())?;
        rt.println(text)?;
    }
    Ok(())
}
