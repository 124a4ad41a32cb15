//! Functions and classes.

ghost use Rattle.std.specs.Prelude.{◌≡◌, suc, ◌+◌, ◌<◌};
ghost use Rattle.resin_form.specs.Meaning.{reading};
ghost use Rattle.resin_form.specs.Reads.{Reads};
ghost use Rattle.resin_grammar.specs.Reading.{is_low};
ghost use Rattle.resin_program_grammar.specs.Combine.{in_braces};
ghost use Rattle.resin_program_grammar.specs.Declarations as declarations;
ghost use Rattle.resin_program_grammar.specs.Names as name;
ghost use Rattle.resin_program_grammar.specs.Trees as tree;
ghost use Rattle.resin_parse_statement.specs.Nested.{by, line_by};

use resin_form::{Cursor, Fault};
use resin_grammar::Sign;
use resin_grammar::sign::is_sign;
use resin_lex::{ClassDecl, Function, Items, Property, Shared, SharedBytes, Token, TokenKind};
use resin_parse_plain::Reader;
use resin_parse_statement::braces;
use resin_program_grammar::lead::is_modifier;
use resin_program_grammar::tokens::begins_member;
use resin_program_grammar::word::is_word;
use resin_program_grammar::{Members, Word};
use std::alloc::Global;

/// A reader of functions, classes and what else stands at the top level of a file.
#[derive(Clone, Copy)]
pub struct Declarations<'l> {
    pub reader: Reader<'l>,
}

/// A class before its first member.
fn no_members(alloc: Global) -> Members
    ensures { result ≡ tree.no_members }
{
    Members {
        properties: Items::new(alloc),
        methods: Items::new(alloc),
    }
}

impl<'l> Declarations<'l> {
    /// What follows `function`.
    #[tactic(auto, unfolding(resin_program_grammar::specs::Declarations::function))]
    pub fn function(&self, tokens: &mut Cursor<'_, Token>, line: u32) -> Result<Function, Fault>
        ensures { Reads (by self.now.reader (declarations.function line) tokens.old) result tokens.new }
    {
        let name = self.reader.a_name(tokens)?.bytes()?;
        let parameters = self.reader.in_parameters(tokens)?;
        self.reader.expect(tokens, Sign::RightRound)?;
        self.reader.result_type(tokens)?;
        let body = braces(self.reader, tokens, false)?;
        Ok(Function {
            line,
            name,
            parameters: Shared::new(self.reader.alloc, parameters)?,
            body: Shared::new(self.reader.alloc, body)?,
        })
    }

    /// A property, put behind the others.
    #[tactic(auto, unfolding(resin_program_grammar::specs::Declarations::property))]
    pub fn property(
        &self,
        tokens: &mut Cursor<'_, Token>,
        mut members: Members,
    ) -> Result<Members, Fault>
        ensures { Reads (by self.now.reader (declarations.property members) tokens.old) result tokens.new }
    {
        let name = self.reader.a_variable(tokens)?;
        let default = self.reader.default(tokens)?;
        members.properties.push(Property { name, default })?;
        Ok(members)
    }

    /// `, $p` again and again.
    pub fn more_properties(
        &self,
        tokens: &mut Cursor<'_, Token>,
        first: Members,
    ) -> Result<Members, Fault>
        ensures { Reads (by self.now.reader (declarations.more_properties first) tokens.old) result tokens.new }
    {
        let mut members = first;
        'turns: while let Some(next) = tokens.peek() {
            if !is_sign(Sign::Comma, &next.kind) {
                break;
            }
            tokens.skip(next);
            members = self.property(tokens, members)?;
        }
        Ok(members)
    }

    /// Properties behind `var` or a modifier, up to `;`.
    #[tactic(auto, unfolding(resin_program_grammar::specs::Declarations::properties))]
    pub fn properties(
        &self,
        tokens: &mut Cursor<'_, Token>,
        members: Members,
    ) -> Result<Members, Fault>
        ensures { Reads (by self.now.reader (declarations.properties members) tokens.old) result tokens.new }
    {
        self.reader.any_type(tokens)?;
        let first = self.property(tokens, members)?;
        let members = self.more_properties(tokens, first)?;
        self.reader.want(tokens, Word::Semicolon)?;
        Ok(members)
    }

    /// What follows `function` in a class, put behind the others.
    #[tactic(auto, unfolding(resin_program_grammar::specs::Declarations::method))]
    pub fn method(
        &self,
        tokens: &mut Cursor<'_, Token>,
        mut members: Members,
        line: u32,
    ) -> Result<Members, Fault>
        ensures { Reads (by self.now.reader (declarations.method members line) tokens.old) result tokens.new }
    {
        let method = self.function(tokens, line)?;
        members.methods.push(method)?;
        Ok(members)
    }

    /// Modifiers, or none.
    pub fn modifiers(&self, tokens: &mut Cursor<'_, Token>) -> Result<(), Fault>
        ensures { Reads (by self.now.reader (declarations.modifiers) tokens.old) result tokens.new }
    {
        'turns: while let Some(next) = tokens.peek() {
            if !is_modifier(&next.kind) {
                break;
            }
            tokens.skip(next);
        }
        Ok(())
    }

    /// `function`, or nothing: whether it stood there.
    #[tactic(auto, unfolding(resin_program_grammar::specs::Declarations::eats_function))]
    pub fn eats_function(&self, tokens: &mut Cursor<'_, Token>) -> Result<bool, Fault>
        ensures { Reads (by self.now.reader (declarations.eats_function) tokens.old) result tokens.new }
    {
        match tokens.peek() {
            Some(next) if is_word(Word::Function, &next.kind) => {
                tokens.skip(next);
                Ok(true)
            }
            _ => Ok(false),
        }
    }

    /// A member behind its first modifier.
    #[tactic(auto, unfolding(resin_program_grammar::specs::Declarations::modified))]
    pub fn modified(
        &self,
        tokens: &mut Cursor<'_, Token>,
        members: Members,
        line: u32,
    ) -> Result<Members, Fault>
        ensures { Reads (by self.now.reader (declarations.modified members line) tokens.old) result tokens.new }
    {
        self.modifiers(tokens)?;
        if self.eats_function(tokens)? {
            self.method(tokens, members, line)
        } else {
            self.properties(tokens, members)
        }
    }

    /// A member behind its first token.
    #[tactic(auto, unfolding(resin_program_grammar::specs::Declarations::member))]
    pub fn member(
        &self,
        tokens: &mut Cursor<'_, Token>,
        members: Members,
        line: u32,
        kind: &TokenKind,
    ) -> Result<Members, Fault>
        ensures { Reads (by self.now.reader (declarations.member members line kind.now) tokens.old) result tokens.new }
    {
        if is_word(Word::Var, kind) {
            self.properties(tokens, members)
        } else if is_word(Word::Function, kind) {
            self.method(tokens, members, line)
        } else {
            self.modified(tokens, members, line)
        }
    }

    /// The members of a class, put behind these.
    pub fn more_members(
        &self,
        tokens: &mut Cursor<'_, Token>,
        first: Members,
    ) -> Result<Members, Fault>
        ensures { Reads (by self.now.reader (declarations.more_members (line_by self.now.reader) first) tokens.old) result tokens.new }
    {
        let mut members = first;
        'turns: while let Some(next) = tokens.peek() {
            if !begins_member(&next.kind) {
                break;
            }
            let line = self.reader.lines.line_of(next);
            tokens.skip(next);
            members = self.member(tokens, members, line, &next.kind)?;
        }
        Ok(members)
    }

    /// The members of a class.
    #[tactic(auto, unfolding(resin_program_grammar::specs::Declarations::members))]
    pub fn members(&self, tokens: &mut Cursor<'_, Token>) -> Result<Members, Fault>
        ensures { Reads (by self.now.reader (declarations.members (line_by self.now.reader)) tokens.old) result tokens.new }
    {
        self.more_members(tokens, no_members(self.reader.alloc))
    }

    /// The members of a class, in braces that open here.
    pub fn members_inside(&self, tokens: &mut Cursor<'_, Token>) -> Result<Members, Fault>
        requires { 0 < self.now.reader.depth }
        ensures { Reads (reading (declarations.rules (line_by self.now.reader)) is_low
            (suc self.now.reader.depth) (name.ClassMembers) tokens.old) result tokens.new }
    {
        let inner = Declarations {
            reader: self.reader.inside(),
        };
        inner.members(tokens)
    }

    /// `{` and the members of a class.
    #[tactic(auto, unfolding(resin_program_grammar::specs::Combine::in_braces))]
    pub fn in_members(&self, tokens: &mut Cursor<'_, Token>) -> Result<Members, Fault>
        ensures { Reads (by self.now.reader (in_braces name.ClassMembers) tokens.old) result tokens.new }
    {
        match tokens.peek() {
            Some(next) if is_word(Word::LeftBrace, &next.kind) => {
                tokens.skip(next);
                if !self.reader.opens() {
                    return Err(Fault::TooDeep);
                }
                self.members_inside(tokens)
            }
            _ => Err(Fault::Syntax),
        }
    }

    /// `extends C`, or nothing.
    #[tactic(auto, unfolding(resin_program_grammar::specs::Declarations::parent))]
    pub fn parent(&self, tokens: &mut Cursor<'_, Token>) -> Result<Option<SharedBytes>, Fault>
        ensures { Reads (by self.now.reader (declarations.parent) tokens.old) result tokens.new }
    {
        match tokens.peek() {
            Some(next) if is_word(Word::Extends, &next.kind) => {
                tokens.skip(next);
                Ok(Some(self.reader.a_name(tokens)?.bytes()?))
            }
            _ => Ok(None),
        }
    }

    /// What follows `class`.
    #[tactic(auto, unfolding(resin_program_grammar::specs::Declarations::class))]
    pub fn class(&self, tokens: &mut Cursor<'_, Token>, line: u32) -> Result<ClassDecl, Fault>
        ensures { Reads (by self.now.reader (declarations.class line) tokens.old) result tokens.new }
    {
        let name = self.reader.a_name(tokens)?;
        let parent = self.parent(tokens)?;
        let members = self.in_members(tokens)?;
        self.reader.expect(tokens, Sign::RightBrace)?;
        Ok(ClassDecl {
            line,
            name,
            parent,
            properties: Shared::new(self.reader.alloc, members.properties)?,
            methods: Shared::new(self.reader.alloc, members.methods)?,
        })
    }

    /// `final` again and again.
    pub fn finals(&self, tokens: &mut Cursor<'_, Token>) -> Result<(), Fault>
        ensures { Reads (by self.now.reader (declarations.finals) tokens.old) result tokens.new }
    {
        'turns: while let Some(next) = tokens.peek() {
            if !is_word(Word::Final, &next.kind) {
                break;
            }
            tokens.skip(next);
        }
        Ok(())
    }

    /// What follows `final` before a class.
    #[tactic(auto, unfolding(resin_program_grammar::specs::Declarations::final_class))]
    pub fn final_class(&self, tokens: &mut Cursor<'_, Token>, line: u32) -> Result<ClassDecl, Fault>
        ensures { Reads (by self.now.reader (declarations.final_class line) tokens.old) result tokens.new }
    {
        self.finals(tokens)?;
        self.reader.want(tokens, Word::Class)?;
        self.class(tokens, line)
    }
}
