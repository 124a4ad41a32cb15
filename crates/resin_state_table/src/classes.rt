//! Acts on classes.
ghost use Rattle.std.specs.Prelude.{◌<◌, IsTrue, length};
ghost use Rattle.resin_heap.specs.Under.scan.Words.{IsName};

use crate::answer::{
    push_bytes, push_count, push_integer, push_missing, push_number, push_numbers, push_text,
    push_truth, push_unknown,
};
use resin_heap::under::scan::bytes::{begins_name, byte, name_len};
use resin_heap::under::tree::{ClassDecl, Function, Items, Name, Shared, SharedBytes};
use resin_heap::{
    ClassFault, Classes, MOST_CLASSES, MOST_METHODS, MethodAt, PRELUDE, PreludeClass, PreludeMethod,
};
use resin_table_rows::{Line, Row};
use std::alloc::{AllocError, Global};

#[tactic(auto, using(crate::proofs::Names::named))]
pub fn is_name(bytes: &[u8]) -> bool
    ensures { IsTrue result → IsName bytes.now }
{
    begins_name(byte(bytes, 0)) && name_len(bytes) == bytes.len()
}

/// A method without parameters and statements.
fn function(alloc: Global, name: &str) -> Result<Function, AllocError> {
    let parameters = Shared::new(alloc, Items::new(alloc))?;
    let body = Shared::new(alloc, Items::new(alloc))?;
    Ok(Function {
        line: 1,
        name: SharedBytes::from_slice(alloc, name.as_bytes())?,
        parameters,
        body,
    })
}

/// The methods whose names these are, split by `,`.
fn functions(alloc: Global, names: &str) -> Result<Items<Function>, AllocError> {
    let mut list = Items::new(alloc);
    for name in names.split(',') {
        if !name.is_empty() {
            list.push(function(alloc, name)?)?;
        }
    }
    Ok(list)
}

fn shared_functions(alloc: Global, names: &str) -> Result<Shared<Items<Function>>, AllocError> {
    let functions = functions(alloc, names)?;
    Shared::new(alloc, functions)
}

fn parent_name(alloc: Global, name: &str) -> Result<Option<SharedBytes>, AllocError> {
    if name.is_empty() {
        return Ok(None);
    }
    Ok(Some(SharedBytes::from_slice(alloc, name.as_bytes())?))
}

/// The declaration on line 1 of a class with a parent and methods.
fn declaration(name: Name, row: Row<'_>) -> Result<ClassDecl, AllocError> {
    let alloc = row.alloc;
    let parent = parent_name(alloc, row.field(2))?;
    let methods = shared_functions(alloc, row.field(3))?;
    Ok(ClassDecl {
        line: 1,
        name,
        parent,
        properties: Shared::new(alloc, Items::new(alloc))?,
        methods,
    })
}

fn add(classes: &mut Classes, class: &ClassDecl) -> Result<u32, ClassFault> {
    let methods = class.methods.get().len();
    if classes.len() < MOST_CLASSES && methods < MOST_METHODS as usize {
        classes.declare(class)
    } else {
        Err(ClassFault::Memory)
    }
}

fn push_added(out: &mut Line, added: Result<u32, ClassFault>) {
    match added {
        Ok(number) => push_integer(out, i64::from(number)),
        Err(ClassFault::Redeclared) => push_text(out, "Redeclared"),
        Err(ClassFault::NoParent) => push_text(out, "NoParent"),
        Err(ClassFault::Memory) => out.note(Err(AllocError)),
    }
}

fn declare(classes: &mut Classes, row: Row<'_>, out: &mut Line) -> Result<(), AllocError> {
    let bytes = row.bytes(1);
    if !is_name(bytes) {
        push_text(out, "no name");
        return Ok(());
    }
    let name = Name::new(SharedBytes::from_slice(row.alloc, bytes)?);
    let class = declaration(name, row)?;
    push_added(out, add(classes, &class));
    Ok(())
}

/// The name of the parent of a class.
fn push_parent(alloc: Global, classes: &Classes, c: u32, out: &mut Line)
    requires { c < length classes.now }
{
    match classes.parent(c) {
        Some(parent) if parent < classes.len() => {
            push_bytes(alloc, out, classes.class_name(parent))
        }
        Some(_) => push_unknown(out),
        None => push_missing(out),
    }
}

fn push_is_a(classes: &Classes, c: u32, other: &[u8], out: &mut Line)
    requires { c < length classes.now }
{
    match classes.find(other) {
        Some(other) => push_truth(out, classes.is_a(c, other)),
        None => push_missing(out),
    }
}

/// The class whose method a call reaches, its place there, and its name as it is written there.
fn push_method(alloc: Global, classes: &Classes, c: u32, name: &[u8], out: &mut Line)
    requires { c < length classes.now }
{
    let Some(at) = classes.method(c, name) else {
        return push_missing(out);
    };
    let MethodAt { class, index } = at;
    out.tell(" = ", u64::from(class), " ");
    out.tell("", u64::from(index), " ");
    let written = String::from_utf8_lossy(alloc, classes.function(at).name.as_slice());
    if let Some(written) = out.taken(written) {
        out.push_str(written.as_str());
    }
}

fn push_classes(out: &mut Line, classes: Result<Vec<u32>, AllocError>) {
    if let Some(classes) = out.taken(classes) {
        push_numbers(out, &classes);
    }
}

/// An act on a class that is there.
fn act_on_class(classes: &Classes, c: u32, row: Row<'_>, out: &mut Line)
    requires { c < length classes.now }
{
    match row.field(0) {
        "parent" => push_parent(row.alloc, classes, c, out),
        "is_a" => push_is_a(classes, c, row.bytes(2), out),
        "method" => push_method(row.alloc, classes, c, row.bytes(2), out),
        "ancestry" => push_classes(out, classes.ancestry(row.alloc, c)),
        "property_classes" => push_classes(out, classes.property_classes(row.alloc, c)),
        "line" => push_count(out, u64::from(classes.declaration(c).line)),
        "properties" => {
            let properties = classes.declaration(c).properties.get();
            push_count(out, properties.len() as u64)
        }
        _ => push_unknown(out),
    }
}

/// The class of the runtime of a name.
fn runtime_class(name: &str) -> Option<PreludeClass> {
    PRELUDE.into_iter().find(|class| class.name() == name)
}

/// What the runtime does in place of a method.
fn push_runtime_method(class: u32, index: u32, out: &mut Line) {
    match PreludeMethod::at(MethodAt { class, index }) {
        Some(method) => write!(out, " = {method:?}"),
        None => push_missing(out),
    }
}

/// The name of the class of the runtime of a number.
fn push_numbered(number: u32, out: &mut Line) {
    match PreludeClass::numbered(number) {
        Some(class) => push_text(out, class.name()),
        None => push_missing(out),
    }
}

fn runtime_number(row: Row<'_>) -> u32 {
    match runtime_class(row.field(1)) {
        Some(class) => class.number(),
        None => row.number(1),
    }
}

fn act_on_named(classes: &Classes, row: Row<'_>, out: &mut Line) {
    match classes.find(row.bytes(1)) {
        Some(c) => act_on_class(classes, c, row, out),
        None => push_missing(out),
    }
}

fn push_declared(classes: &mut Classes, row: Row<'_>, out: &mut Line) {
    let done = declare(classes, row, out);
    out.note(done);
}

pub fn act(classes: &mut Classes, row: Row<'_>, out: &mut Line) {
    match row.field(0) {
        "count" => push_count(out, u64::from(classes.len())),
        "find" => push_number(out, classes.find(row.bytes(1))),
        "declare" => push_declared(classes, row, out),
        "runtime_method" => push_runtime_method(runtime_number(row), row.number(2), out),
        "numbered" => push_numbered(row.number(1), out),
        _ => act_on_named(classes, row, out),
    }
}
