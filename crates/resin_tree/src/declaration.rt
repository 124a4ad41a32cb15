//! Programs and their declarations. Types and the words `public`, `protected`, `private` and `final` leave no trace.
ghost use Rattle.std.specs.Prelude.{◌≡◌, IfOk};

use crate::expression::Literal;
use crate::name::Name;
use crate::statement::Stmt;
use resin_items::{Items, Shared, SharedBytes};
use std::alloc::AllocError;

/// A constant expression: the value of a property or a parameter that is given no other. A `-` before an integer is
/// part of the number.
#[cycle(constants)]
pub enum Constant {
    Literal(Literal),
    Array(Items<ConstantItem>),
}

impl Drop for Constant {
    #[cycle(drops_of_constants)]
    fn drop(self) {
        match self {
            Constant::Literal(_) => {}
            Constant::Array(_) => {}
        }
    }
}

/// One item of a constant array.
#[cycle(constants)]
pub struct ConstantItem {
    /// What stands before `=>`, where it is written.
    pub key: Option<Constant>,
    pub value: Constant,
}

impl Drop for ConstantItem {
    #[cycle(drops_of_constants)]
    fn drop(self) {
        let ConstantItem { key: _, value: _ } = self;
    }
}

/// A parameter, by its name without the `$`.
#[derive(Drop)]
pub struct Parameter {
    pub name: SharedBytes,
    pub default: Option<Constant>,
}

/// A function or a method. Its parameters and its body are shared, so a copy takes no memory.
#[derive(Drop)]
pub struct Function {
    /// The line of the declaration's first token, from 1.
    pub line: u32,
    /// The name as it is written.
    pub name: SharedBytes,
    pub parameters: Shared<Items<Parameter>>,
    pub body: Shared<Items<Stmt>>,
}

/// A property, by its name without the `$`.
#[derive(Drop)]
pub struct Property {
    pub name: SharedBytes,
    pub default: Option<Constant>,
}

/// A class. Its members are shared, so a copy takes no memory.
#[derive(Drop)]
pub struct ClassDecl {
    /// The line of the declaration's first token, from 1.
    pub line: u32,
    pub name: Name,
    /// The name behind `extends`, where it is written.
    pub parent: Option<SharedBytes>,
    /// The properties in their order.
    pub properties: Shared<Items<Property>>,
    /// The methods in their order.
    pub methods: Shared<Items<Function>>,
}

/// What stands at the top level of a file.
#[derive(Drop)]
pub enum Item {
    Function(Function),
    Class(ClassDecl),
    Statement(Stmt),
}

/// A whole file.
#[derive(Drop)]
pub struct Program {
    pub items: Items<Item>,
}

impl Clone for Function {
    ghost use Rattle.std.specs.Prelude.{◌≡◌};

    ghost is_clone = { λ f copy. copy ≡ f };

    /// One more owner of the same parts. It fails only where a count of owners is full.
    fn clone(&self) -> Result<Function, AllocError> {
        Ok(Function {
            line: self.line,
            name: self.name.clone()?,
            parameters: self.parameters.clone()?,
            body: self.body.clone()?,
        })
    }
}

/// One more owner of a name, where there is one.
fn shared_name(name: &Option<SharedBytes>) -> Result<Option<SharedBytes>, AllocError>
    ensures { IfOk result (λ copy. copy ≡ name.now) }
{
    match name {
        Some(name) => Ok(Some(name.clone()?)),
        None => Ok(None),
    }
}

impl Clone for ClassDecl {
    ghost use Rattle.std.specs.Prelude.{◌≡◌};

    ghost is_clone = { λ c copy. copy ≡ c };

    /// One more owner of the same parts. It fails only where a count of owners is full.
    fn clone(&self) -> Result<ClassDecl, AllocError> {
        Ok(ClassDecl {
            line: self.line,
            name: self.name.clone()?,
            parent: shared_name(&self.parent)?,
            properties: self.properties.clone()?,
            methods: self.methods.clone()?,
        })
    }
}
