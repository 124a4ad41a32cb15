//! What holds the parts of trees, and the copies of declarations.
ghost use Rattle.std.specs.Prelude.{◌≤◌, length};

use resin_items::{Boxed, Items, Shared, SharedBytes};
use resin_lex::{
    ClassDecl, Expr, Function, Literal, Name, Stmt, StmtKind, TokenKind, tokens_and_fault,
};
use resin_program_grammar::Chain;
use std::alloc::{AllocError, Global};

fn push_numbers(out: &mut String, numbers: &[u32]) -> Result<(), AllocError> {
    for n in numbers {
        write!(out, " {n}")?;
    }
    Ok(())
}

/// `list|N,N..`: the items, their count, the last, which is taken out, whether none is left, and those that are left.
fn list(alloc: Global, rest: &str) -> Result<String, AllocError> {
    let mut list = Items::new(alloc);
    for n in rest.split(',') {
        list.push(n.parse::<u32>().unwrap_or(0))?;
    }
    let mut out = String::from_str(alloc, "all")?;
    push_numbers(&mut out, list.as_slice())?;
    let count = list.len();
    let last = list.pop().unwrap_or(0);
    let is_empty = list.is_empty();
    write!(out, ", count {count}, last {last}, empty {is_empty}, left")?;
    push_numbers(&mut out, &list.into_vec())?;
    Ok(out)
}

/// `boxed|N`: the number as the box lends it, and as it comes out.
fn boxed(alloc: Global, rest: &str) -> Result<String, AllocError> {
    let boxed = Boxed::new(alloc, rest.parse::<u32>().unwrap_or(0))?;
    let lent = *boxed.get();
    let inner = boxed.into_inner();
    format!(in alloc; "{lent} {inner}")
}

/// `shared|N`: the number as a second owner has it.
fn shared(alloc: Global, rest: &str) -> Result<String, AllocError> {
    let shared = Shared::new(alloc, rest.parse::<u32>().unwrap_or(0))?;
    let second = shared.clone()?;
    let number = *second.get();
    format!(in alloc; "{number}")
}

/// `bytes|TEXT`: the bytes as a second owner has them, by a handle, and those of a vector.
fn bytes(alloc: Global, rest: &str) -> Result<String, AllocError> {
    let bytes = SharedBytes::from_slice(alloc, rest.as_bytes())?;
    let second = String::from_utf8_lossy(alloc, bytes.clone()?.as_slice())?;
    let handle = String::from_utf8_lossy(alloc, bytes.handle()?.as_slice())?;
    let vec = SharedBytes::from_vec(rest.as_bytes().to_vec(alloc)?)?;
    let third = String::from_utf8_lossy(alloc, vec.as_slice())?;
    format!(in alloc; "{second} {handle} {third}")
}

/// `function|LINE|NAME`: the line and the name of a copy.
fn function(alloc: Global, line: u32, name: &str) -> Result<String, AllocError> {
    let function = Function {
        line,
        name: SharedBytes::from_slice(alloc, name.as_bytes())?,
        parameters: Shared::new(alloc, Items::new(alloc))?,
        body: Shared::new(alloc, Items::new(alloc))?,
    };
    let copy = function.clone()?;
    let name = String::from_utf8_lossy(alloc, copy.name.as_slice())?;
    let line = copy.line;
    format!(in alloc; "{line} {name}")
}

/// The name that a word is, and the names behind it.
fn name(alloc: Global, word: &str) -> Result<Option<Name>, AllocError> {
    let text = format!(in alloc; "<?php {word}")?;
    if text.len() > 16_777_216 {
        return Ok(None);
    }
    let lexing = tokens_and_fault(alloc, text.as_bytes())?;
    match lexing.list.tokens.as_slice().first() {
        Some(token) => match &token.kind {
            TokenKind::Name(name) => Ok(Some(name.clone()?)),
            _ => Ok(None),
        },
        None => Ok(None),
    }
}

fn class_of(alloc: Global, name: Name, line: u32, parent: &str) -> Result<ClassDecl, AllocError> {
    Ok(ClassDecl {
        line,
        name,
        parent: Some(SharedBytes::from_slice(alloc, parent.as_bytes())?),
        properties: Shared::new(alloc, Items::new(alloc))?,
        methods: Shared::new(alloc, Items::new(alloc))?,
    })
}

/// The line, the name and the parent of a class.
fn shown_class(alloc: Global, class: &ClassDecl) -> Result<String, AllocError> {
    let line = class.line;
    let name = String::from_utf8_lossy(alloc, class.name.as_slice())?;
    match &class.parent {
        Some(parent) => {
            let parent = String::from_utf8_lossy(alloc, parent.as_slice())?;
            format!(in alloc; "{line} {name} {parent}")
        }
        None => format!(in alloc; "{line} {name}"),
    }
}

/// `class|LINE|NAME PARENT`: the line, the name and the parent of a copy.
fn class(alloc: Global, line: u32, names: &str) -> Result<String, AllocError> {
    let (word, parent) = names.split_once(' ').unwrap_or((names, ""));
    match name(alloc, word)? {
        Some(name) => {
            let class = class_of(alloc, name, line, parent)?;
            shown_class(alloc, &class.clone()?)
        }
        None => String::from_str(alloc, "no name"),
    }
}

/// An `if` on a line with one link, whose body is an empty block.
fn one_link(alloc: Global, line: u32) -> Result<Stmt, AllocError> {
    let body = Stmt {
        line: 1,
        kind: StmtKind::Block(Items::new(alloc)),
    };
    let mut chain = Chain::new(alloc, line);
    chain.push(alloc, Expr::Literal(Literal::Int(1)), body)?;
    chain.whole(alloc, None)
}

/// `chain|LINE|`: the line of the `if`, how many links it has, and whether an `else`.
fn chain(alloc: Global, line: u32) -> Result<String, AllocError> {
    let whole = one_link(alloc, line)?;
    let line = whole.line;
    match &whole.kind {
        StmtKind::If(links, other) => {
            let count = links.len();
            let has_else = other.is_some();
            format!(in alloc; "{line} {count} {has_else}")
        }
        _ => String::from_str(alloc, "no if"),
    }
}

fn answer_with_line(alloc: Global, asked: &str, rest: &str) -> Result<String, AllocError> {
    let (line, name) = rest.split_once('|').unwrap_or((rest, ""));
    let line = line.parse::<u32>().unwrap_or(0);
    match asked {
        "function" => function(alloc, line, name),
        "class" => class(alloc, line, name),
        _ => chain(alloc, line),
    }
}

pub fn answer(alloc: Global, asked: &str, rest: &str) -> Result<String, AllocError> {
    match asked {
        "list" => list(alloc, rest),
        "boxed" => boxed(alloc, rest),
        "shared" => shared(alloc, rest),
        "bytes" => bytes(alloc, rest),
        _ => answer_with_line(alloc, asked, rest),
    }
}
