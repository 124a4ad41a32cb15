//! What a token stands for, and what it begins.
ghost use Rattle.std.specs.Prelude.{◌≤◌, length};

use crate::words;
use resin_grammar::operators::{
    constant_of, import_of, level_of, operator_of, prefix_of, writing_of,
};
use resin_grammar::sign::{Sign, is_sign};
use resin_grammar::tokens::{
    begins_operand, begins_part, is_name, is_postfix, is_simple_postfix, is_variable, name_of,
};
use resin_lex::{Token, TokenKind, tokens_and_fault};
use resin_program_grammar::Word;
use resin_program_grammar::lead::{compound_of, is_modifier, plain_of};
use resin_program_grammar::tokens::{
    begins_constant, begins_expression, begins_item, begins_member, begins_parameter,
    begins_statement, begins_type, digits_of,
};
use resin_program_grammar::word::is_word;
use std::alloc::{AllocError, Global};

/// Whether a token is or begins something in an expression.
fn in_expressions(asked: &str, kind: &TokenKind) -> Option<bool> {
    match asked {
        "begins_operand" => Some(begins_operand(kind)),
        "begins_part" => Some(begins_part(kind)),
        "is_simple_postfix" => Some(is_simple_postfix(kind)),
        "is_postfix" => Some(is_postfix(kind)),
        "is_name" => Some(is_name(kind)),
        "is_variable" => Some(is_variable(kind)),
        "is_instanceof" => Some(is_sign(Sign::InstanceOf, kind)),
        "is_arrow" => Some(is_sign(Sign::Arrow, kind)),
        _ => None,
    }
}

/// Whether a token is or begins something in a program.
fn in_programs(asked: &str, token: &Token) -> Option<bool> {
    let kind = &token.kind;
    match asked {
        "begins_statement" => Some(begins_statement(false, token)),
        "begins_statement_in_loop" => Some(begins_statement(true, token)),
        "begins_expression" => Some(begins_expression(token)),
        "begins_item" => Some(begins_item(token)),
        "begins_member" => Some(begins_member(kind)),
        "begins_type" => Some(begins_type(kind)),
        "begins_parameter" => Some(begins_parameter(token)),
        "begins_constant" => Some(begins_constant(kind)),
        "is_modifier" => Some(is_modifier(kind)),
        "is_semicolon" => Some(is_word(Word::Semicolon, kind)),
        _ => in_expressions(asked, kind),
    }
}

/// The word for what a token stands for.
fn meaning(asked: &str, kind: &TokenKind) -> Option<&'static str> {
    match asked {
        "operator" => Some(words::operator(operator_of(kind))),
        "prefix" => prefix_of(kind).map(words::prefix),
        "writing" => writing_of(kind).map(words::writing),
        "import" => import_of(kind).map(words::import),
        "plain" => plain_of(false, kind).map(words::plain),
        "plain_in_loop" => plain_of(true, kind).map(words::plain),
        "compound" => compound_of(kind).map(words::compound),
        _ => None,
    }
}

fn about(alloc: Global, asked: &str, token: &Token) -> Result<String, AllocError> {
    if let Some(truth) = in_programs(asked, token) {
        return String::from_str(alloc, words::truth(truth));
    }
    match asked {
        "level" => {
            let level = level_of(&token.kind);
            format!(in alloc; "{level}")
        }
        "name" => {
            let name = name_of(alloc, &token.kind)?;
            String::from_utf8_lossy(alloc, name.as_slice())
        }
        _ => String::from_str(alloc, meaning(asked, &token.kind).unwrap_or("none")),
    }
}

/// What is asked of the token at the place of `PLACE|SOURCE`.
pub fn answer(alloc: Global, asked: &str, rest: &str) -> Result<String, AllocError> {
    let (place, source) = rest.split_once('|').unwrap_or(("", rest));
    let place = place.parse::<usize>().unwrap_or(0);
    let text = format!(in alloc; "<?php {source}")?;
    if text.len() > 16_777_216 {
        return String::from_str(alloc, "too long");
    }
    let lexing = tokens_and_fault(alloc, text.as_bytes())?;
    match lexing.list.tokens.as_slice().get(place) {
        Some(token) => about(alloc, asked, token),
        None => String::from_str(alloc, "no token"),
    }
}

/// The digits of a number, or the constant of a name.
pub fn answer_about(alloc: Global, asked: &str, rest: &str) -> Result<String, AllocError> {
    if asked == "constant" {
        let word = constant_of(rest.as_bytes()).map(words::constant);
        return String::from_str(alloc, word.unwrap_or("none"));
    }
    let number = rest.parse::<i64>().unwrap_or(0);
    match digits_of(&TokenKind::Int(number)) {
        Some(digits) => format!(in alloc; "{digits}"),
        None => String::from_str(alloc, "none"),
    }
}
