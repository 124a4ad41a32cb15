//! Trees as texts: the word of a form and then its parts in order, a list between brackets. Two trees have the same text
//! only where they are the same tree.

use resin_lex::{
    Access, ArrayItem, Assignment, Boxed, Branch, Call, Case, Catch, ClassDecl, Combining,
    Comparison, Constant, ConstantItem, ConstantName, Expr, Function, Import, Item, Items, Literal,
    Loop, Operation, Parameter, PathStep, Program, Property, SharedBytes, Simple, Stmt, StmtKind,
    Target, Test, Unary,
};
use std::alloc::{AllocError, Global};

/// A text under way. Want of memory is said at its end.
#[derive(Drop)]
pub struct Spelling {
    alloc: Global,
    text: Vec<u8>,
    fault: Option<AllocError>,
}

impl Spelling {
    pub fn new(alloc: Global) -> Spelling {
        Spelling {
            alloc,
            text: Vec::new(alloc),
            fault: None,
        }
    }

    /// The text, if there was memory for all of it.
    pub fn finish(self) -> Result<Vec<u8>, AllocError> {
        let Spelling {
            alloc: _,
            text,
            fault,
        } = self;
        match fault {
            Some(fault) => Err(fault),
            None => Ok(text),
        }
    }

    fn push(&mut self, bytes: &[u8]) {
        if let Err(fault) = self.text.extend_from_slice(bytes) {
            self.fault = Some(fault);
        }
    }

    fn word(&mut self, word: &str) {
        self.push(word.as_bytes());
        self.push(b" ");
    }

    fn number(&mut self, number: i64) {
        match format!(in self.alloc; "{number} ") {
            Ok(digits) => self.push(digits.as_bytes()),
            Err(fault) => self.fault = Some(fault),
        }
    }

    fn bytes(&mut self, bytes: &[u8]) {
        self.push(b"\"");
        for byte in bytes {
            if *byte == b'"' || *byte == b'\\' {
                self.push(b"\\");
            }
            self.push(&[*byte]);
        }
        self.push(b"\" ");
    }
}

fn name(out: &mut Spelling, bytes: &SharedBytes) {
    out.bytes(bytes.as_slice());
}

fn optional_name(out: &mut Spelling, bytes: &Option<SharedBytes>) {
    match bytes {
        Some(bytes) => name(out, bytes),
        None => out.word("none"),
    }
}

fn names(out: &mut Spelling, names: &Items<SharedBytes>) {
    out.word("[");
    for bytes in names.as_slice() {
        name(out, bytes);
    }
    out.word("]");
}

fn constant_name(constant: ConstantName) -> &'static str {
    match constant {
        ConstantName::Null => "null",
        ConstantName::True => "true",
        ConstantName::False => "false",
        ConstantName::IntMax => "PHP_INT_MAX",
        ConstantName::IntMin => "PHP_INT_MIN",
        ConstantName::EndOfLine => "PHP_EOL",
        ConstantName::FileAppend => "FILE_APPEND",
        ConstantName::PadLeft => "STR_PAD_LEFT",
        ConstantName::PadRight => "STR_PAD_RIGHT",
    }
}

fn unary(operator: Unary) -> &'static str {
    match operator {
        Unary::Minus => "-",
        Unary::Plus => "+",
        Unary::Not => "!",
        Unary::ToInt => "(int)",
        Unary::ToText => "(string)",
        Unary::ToBool => "(bool)",
    }
}

fn combining(operator: Combining) -> &'static str {
    match operator {
        Combining::Multiply => "*",
        Combining::Divide => "/",
        Combining::Remainder => "%",
        Combining::Add => "+",
        Combining::Subtract => "-",
        Combining::Concat => ".",
    }
}

fn comparison(operator: Comparison) -> &'static str {
    match operator {
        Comparison::Less => "<",
        Comparison::LessOrEqual => "<=",
        Comparison::Greater => ">",
        Comparison::GreaterOrEqual => ">=",
        Comparison::Equal => "==",
        Comparison::NotEqual => "!=",
        Comparison::Identical => "===",
        Comparison::NotIdentical => "!==",
        Comparison::Compare => "<=>",
    }
}

fn import(form: Import) -> &'static str {
    match form {
        Import::Include => "include",
        Import::IncludeOnce => "include_once",
        Import::Require => "require",
        Import::RequireOnce => "require_once",
    }
}

fn literal(out: &mut Spelling, literal: &Literal) {
    match literal {
        Literal::Int(number) => out.number(*number),
        Literal::Text(text) => name(out, text),
        Literal::Constant(constant) => out.word(constant_name(*constant)),
    }
}

/// Spells an expression.
#[cycle(expressions)]
pub fn expression(out: &mut Spelling, e: &Expr) {
    match e {
        Expr::Literal(value) => literal(out, value),
        Expr::Variable(variable) => {
            out.word("$");
            name(out, variable);
        }
        Expr::Array(items) => array_items(out, items.as_slice()),
        Expr::Join(parts) => {
            out.word("join");
            expressions(out, parts.as_slice());
        }
        Expr::Access(form) => access(out, form),
        Expr::Operation(form) => operation(out, form),
        Expr::Test(form) => test(out, form),
        Expr::Assignment(form) => assignment(out, form),
        Expr::Call(form) => call(out, form),
    }
}

#[cycle(expressions)]
fn expressions(out: &mut Spelling, es: &[Expr]) {
    out.word("[");
    for e in es {
        expression(out, e);
    }
    out.word("]");
}

#[cycle(expressions)]
fn array_items(out: &mut Spelling, items: &[ArrayItem]) {
    out.word("array [");
    for item in items {
        array_item(out, item);
    }
    out.word("]");
}

#[cycle(expressions)]
fn array_item(out: &mut Spelling, item: &ArrayItem) {
    if let Some(key) = &item.key {
        out.word("=>");
        expression(out, key.get());
    }
    expression(out, item.value.get());
}

#[cycle(expressions)]
fn access(out: &mut Spelling, form: &Access) {
    match form {
        Access::Index(whole, at) => {
            out.word("index");
            expression(out, whole.get());
            expression(out, at.get());
        }
        Access::Property(whole, property) => {
            out.word("->");
            expression(out, whole.get());
            name(out, property);
        }
    }
}

#[cycle(expressions)]
fn operation(out: &mut Spelling, form: &Operation) {
    match form {
        Operation::Unary(operator, a) => {
            out.word("unary");
            out.word(unary(*operator));
            expression(out, a.get());
        }
        Operation::Combine(operator, a, b) => {
            out.word(combining(*operator));
            expression(out, a.get());
            expression(out, b.get());
        }
        Operation::Compare(operator, a, b) => {
            out.word(comparison(*operator));
            expression(out, a.get());
            expression(out, b.get());
        }
        Operation::InstanceOf(a, class) => {
            out.word("instanceof");
            expression(out, a.get());
            name(out, class);
        }
    }
}

#[cycle(expressions)]
fn test(out: &mut Spelling, form: &Test) {
    match form {
        Test::And(a, b) => {
            out.word("&&");
            expression(out, a.get());
            expression(out, b.get());
        }
        Test::Or(a, b) => {
            out.word("||");
            expression(out, a.get());
            expression(out, b.get());
        }
        Test::Coalesce(a, b) => {
            out.word("??");
            expression(out, a.get());
            expression(out, b.get());
        }
        Test::Choice(condition, a, b) => {
            out.word("?:");
            expression(out, condition.get());
            expression(out, a.get());
            expression(out, b.get());
        }
        Test::Either(a, b) => {
            out.word("?");
            expression(out, a.get());
            expression(out, b.get());
        }
        Test::Isset(operands) => {
            out.word("isset");
            expressions(out, operands.as_slice());
        }
        Test::Empty(a) => {
            out.word("empty");
            expression(out, a.get());
        }
    }
}

#[cycle(expressions)]
fn target(out: &mut Spelling, t: &Target) {
    name(out, &t.variable);
    steps(out, t.path.as_slice());
}

#[cycle(expressions)]
fn steps(out: &mut Spelling, path: &[PathStep]) {
    out.word("[");
    for one in path {
        step(out, one);
    }
    out.word("]");
}

#[cycle(expressions)]
fn step(out: &mut Spelling, one: &PathStep) {
    match one {
        PathStep::Index(at) => {
            out.word("index");
            expression(out, at.get());
        }
        PathStep::Append => out.word("append"),
        PathStep::Property(property) => {
            out.word("->");
            name(out, property);
        }
    }
}

#[cycle(expressions)]
fn assignment(out: &mut Spelling, form: &Assignment) {
    match form {
        Assignment::Assign(to, value) => {
            out.word("=");
            target(out, to);
            expression(out, value.get());
        }
        Assignment::Compound(operator, to, value) => {
            out.word("compound");
            out.word(combining(*operator));
            target(out, to);
            expression(out, value.get());
        }
        Assignment::CoalesceAssign(to, value) => {
            out.word("??=");
            target(out, to);
            expression(out, value.get());
        }
        Assignment::PreIncrement(to) => {
            out.word("++t");
            target(out, to);
        }
        Assignment::PreDecrement(to) => {
            out.word("--t");
            target(out, to);
        }
        Assignment::PostIncrement(to) => {
            out.word("t++");
            target(out, to);
        }
        Assignment::PostDecrement(to) => {
            out.word("t--");
            target(out, to);
        }
    }
}

#[cycle(expressions)]
fn call(out: &mut Spelling, form: &Call) {
    match form {
        Call::Function(function, arguments) => {
            out.word("call");
            name(out, function);
            expressions(out, arguments.as_slice());
        }
        Call::Method(object, method, arguments) => {
            out.word("method");
            expression(out, object.get());
            name(out, method);
            expressions(out, arguments.as_slice());
        }
        Call::Parent(method, arguments) => {
            out.word("parent");
            name(out, method);
            expressions(out, arguments.as_slice());
        }
        Call::New(class, arguments) => {
            out.word("new");
            name(out, class);
            expressions(out, arguments.as_slice());
        }
        Call::Import(form, file) => {
            out.word(import(*form));
            expression(out, file.get());
        }
    }
}

fn targets(out: &mut Spelling, targets: &[Target]) {
    out.word("unset [");
    for one in targets {
        target(out, one);
    }
    out.word("]");
}

fn optional_expression(out: &mut Spelling, e: &Option<Expr>) {
    match e {
        Some(e) => expression(out, e),
        None => out.word("none"),
    }
}

fn simple(out: &mut Spelling, statement: &Simple) {
    match statement {
        Simple::Inline(text) => {
            out.word("inline");
            name(out, text);
        }
        Simple::Do(e) => {
            out.word("do");
            expression(out, e);
        }
        Simple::Echo(es) => {
            out.word("echo");
            expressions(out, es.as_slice());
        }
        Simple::Return(e) => {
            out.word("return");
            optional_expression(out, e);
        }
        Simple::Throw(e) => {
            out.word("throw");
            expression(out, e);
        }
        Simple::Break => out.word("break"),
        Simple::Continue => out.word("continue"),
        Simple::Unset(ts) => targets(out, ts.as_slice()),
        Simple::Global(variables) => {
            out.word("global");
            names(out, variables);
        }
        Simple::Exit => out.word("exit"),
    }
}

#[cycle(statements)]
fn statement(out: &mut Spelling, s: &Stmt) {
    out.word("line");
    out.number(s.line as i64);
    kind(out, &s.kind);
}

#[cycle(statements)]
fn statements(out: &mut Spelling, ss: &[Stmt]) {
    out.word("[");
    for s in ss {
        statement(out, s);
    }
    out.word("]");
}

#[cycle(statements)]
fn kind(out: &mut Spelling, kind: &StmtKind) {
    match kind {
        StmtKind::Simple(s) => simple(out, s),
        StmtKind::Block(ss) => statements(out, ss.as_slice()),
        StmtKind::If(bs, last) => {
            branches(out, bs.as_slice());
            other_branch(out, last);
        }
        StmtKind::Loop(l) => repetition(out, l),
        StmtKind::Switch(e, cs) => {
            out.word("switch");
            expression(out, e);
            cases(out, cs.as_slice());
        }
        StmtKind::Try(body, parts, last) => {
            out.word("try");
            statements(out, body.as_slice());
            catches(out, parts.as_slice());
            match last {
                Some(ss) => statements(out, ss.as_slice()),
                None => out.word("none"),
            }
        }
    }
}

// What stands behind the last `else`.
#[cycle(statements)]
fn other_branch(out: &mut Spelling, last: &Option<Boxed<Stmt>>) {
    match last {
        Some(s) => statement(out, s.get()),
        None => out.word("none"),
    }
}

#[cycle(statements)]
fn branches(out: &mut Spelling, bs: &[Branch]) {
    out.word("if [");
    for b in bs {
        branch(out, b);
    }
    out.word("]");
}

#[cycle(statements)]
fn branch(out: &mut Spelling, b: &Branch) {
    expression(out, &b.condition);
    statement(out, b.body.get());
}

#[cycle(statements)]
fn repetition(out: &mut Spelling, l: &Loop) {
    match l {
        Loop::While(e, body) => {
            out.word("while");
            expression(out, e);
            statement(out, body.get());
        }
        Loop::DoWhile(body, e) => {
            out.word("do while");
            statement(out, body.get());
            expression(out, e);
        }
        Loop::For(first, tests, after, body) => {
            out.word("for");
            expressions(out, first.as_slice());
            expressions(out, tests.as_slice());
            expressions(out, after.as_slice());
            statement(out, body.get());
        }
        Loop::Foreach(e, key, value, body) => {
            out.word("foreach");
            expression(out, e);
            optional_name(out, key);
            name(out, value);
            statement(out, body.get());
        }
    }
}

#[cycle(statements)]
fn cases(out: &mut Spelling, cs: &[Case]) {
    out.word("[");
    for c in cs {
        case(out, c);
    }
    out.word("]");
}

#[cycle(statements)]
fn case(out: &mut Spelling, c: &Case) {
    out.word("case");
    optional_expression(out, &c.condition);
    statements(out, c.statements.as_slice());
}

#[cycle(statements)]
fn catches(out: &mut Spelling, cs: &[Catch]) {
    out.word("[");
    for c in cs {
        catch(out, c);
    }
    out.word("]");
}

#[cycle(statements)]
fn catch(out: &mut Spelling, c: &Catch) {
    out.word("catch");
    names(out, &c.classes);
    optional_name(out, &c.variable);
    statements(out, c.statements.as_slice());
}

#[cycle(constants)]
fn constant(out: &mut Spelling, c: &Constant) {
    match c {
        Constant::Literal(value) => literal(out, value),
        Constant::Array(items) => constant_items(out, items.as_slice()),
    }
}

#[cycle(constants)]
fn constant_items(out: &mut Spelling, items: &[ConstantItem]) {
    out.word("array [");
    for item in items {
        constant_item(out, item);
    }
    out.word("]");
}

#[cycle(constants)]
fn constant_item(out: &mut Spelling, item: &ConstantItem) {
    if let Some(key) = &item.key {
        out.word("=>");
        constant(out, key);
    }
    constant(out, &item.value);
}

fn optional_constant(out: &mut Spelling, c: &Option<Constant>) {
    match c {
        Some(c) => constant(out, c),
        None => out.word("none"),
    }
}

fn parameters(out: &mut Spelling, parameters: &[Parameter]) {
    out.word("[");
    for parameter in parameters {
        name(out, &parameter.name);
        optional_constant(out, &parameter.default);
    }
    out.word("]");
}

fn properties(out: &mut Spelling, properties: &[Property]) {
    out.word("[");
    for property in properties {
        name(out, &property.name);
        optional_constant(out, &property.default);
    }
    out.word("]");
}

fn function(out: &mut Spelling, f: &Function) {
    out.word("function");
    out.number(f.line as i64);
    name(out, &f.name);
    parameters(out, f.parameters.get().as_slice());
    statements(out, f.body.get().as_slice());
}

fn methods(out: &mut Spelling, methods: &[Function]) {
    out.word("[");
    for method in methods {
        function(out, method);
    }
    out.word("]");
}

fn class(out: &mut Spelling, c: &ClassDecl) {
    out.word("class");
    out.number(c.line as i64);
    out.bytes(c.name.as_slice());
    optional_name(out, &c.parent);
    properties(out, c.properties.get().as_slice());
    methods(out, c.methods.get().as_slice());
}

fn item(out: &mut Spelling, item: &Item) {
    match item {
        Item::Function(f) => function(out, f),
        Item::Class(c) => class(out, c),
        Item::Statement(s) => statement(out, s),
    }
}

/// Spells a program.
pub fn program(out: &mut Spelling, p: &Program) {
    for one in p.items.as_slice() {
        item(out, one);
    }
}
