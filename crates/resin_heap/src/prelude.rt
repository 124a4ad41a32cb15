//! The classes that every script finds declared.
ghost use Rattle.std.specs.Prelude.{◌≡◌, [], ◌∷◌, None, map, slice_get, IfOk};
ghost use Rattle.std.specs.Option.{option_map};
ghost use Rattle.resin_scan.specs.Words.{IsName};
ghost use Rattle.resin_heap.specs.Prelude.{name_of, parent_class, number_of, method_name, methods_of_class, parameters_of, parameter_of};
ghost use Rattle.resin_heap.specs.Prelude.{property_of, properties_of_exceptions, properties_of_lost, text, zero_constant, empty_array};
ghost use Rattle.resin_heap.specs.Prelude.{function_of, properties_of_class, declaration_of, prelude_method_at, all_classes};

use crate::classes::MethodAt;
use resin_items::{Items, Shared, SharedBytes};
use resin_tree::{ClassDecl, Constant, Function, Literal, Name, Parameter, Property};
use std::alloc::{AllocError, Global};

/// A class of the runtime. Its number is its place in this list.
#[derive(Clone, Copy, Debug, Eq, PartialEq)]
pub enum PreludeClass {
    /// What can be thrown. No object is of this class itself.
    Throwable,
    Exception,
    Error,
    ArithmeticError,
    TypeError,
    ValueError,
    DivisionByZeroError,
    ArgumentCountError,
    /// What a policy throws to keep data in.
    PolicyException,
    SqlException,
    /// The parent of all policies. It lets everything pass.
    Policy,
    /// A policy that lets nothing pass.
    NoExport,
    /// The parent of all filters. It changes nothing.
    Filter,
    /// A stored policy whose class isn't there: it keeps the name of that class in `of`, and the policy's fields in `fields`. It lets nothing pass.
    LostPolicy,
}

/// What a method of a class of the runtime does. The runtime runs it; its tree has no statements.
#[derive(Clone, Copy, Debug, Eq, PartialEq)]
pub enum PreludeMethod {
    /// `__construct($message = '', $code = 0)`: gives the properties of these names these values.
    Construct,
    /// `getMessage()`: answers the property `message`.
    GetMessage,
    /// `getCode()`: answers the property `code`.
    GetCode,
    /// `export_check($context)` of `Policy`: answers null.
    Allow,
    /// `merge($set)` of `Policy`: answers a list of the object itself.
    MergeToItself,
    /// `export_check($context)` of `NoExport` and of `LostPolicy`: throws a new `PolicyException`.
    Refuse,
    /// `filter_read($data, $context)`: answers the data.
    FilterRead,
    /// `filter_write($data, $context)`: answers the data.
    FilterWrite,
    /// `filter_func($name, $args)`: answers the arguments.
    FilterFunction,
}

/// How many classes the runtime has.
pub const PRELUDE_LEN: u32 = 14;

/// The classes of the runtime, in the order of their numbers.
pub const PRELUDE: [PreludeClass; 14] = [
    PreludeClass::Throwable,
    PreludeClass::Exception,
    PreludeClass::Error,
    PreludeClass::ArithmeticError,
    PreludeClass::TypeError,
    PreludeClass::ValueError,
    PreludeClass::DivisionByZeroError,
    PreludeClass::ArgumentCountError,
    PreludeClass::PolicyException,
    PreludeClass::SqlException,
    PreludeClass::Policy,
    PreludeClass::NoExport,
    PreludeClass::Filter,
    PreludeClass::LostPolicy,
];

impl PreludeClass {
    /// The number of the class.
    pub fn number(self) -> u32
        ensures { result ≡ number_of self }
    {
        self as u32
    }

    /// The class of a number, `None` exactly where the runtime has no class of it.
    pub fn numbered(number: u32) -> Option<PreludeClass>
        ensures { result ≡ slice_get all_classes number }
    {
        nth(&PRELUDE, number)
    }

    /// The name.
    #[tactic(auto, using(crate::proofs::Prelude_fits::is_named))]
    pub fn name(self) -> &'static str
        ensures value { result.now ≡ name_of self }
        ensures name { IsName result.now }
    {
        match self {
            PreludeClass::Throwable => "Throwable",
            PreludeClass::Exception => "Exception",
            PreludeClass::Error => "Error",
            PreludeClass::ArithmeticError => "ArithmeticError",
            PreludeClass::TypeError => "TypeError",
            PreludeClass::ValueError => "ValueError",
            PreludeClass::DivisionByZeroError => "DivisionByZeroError",
            PreludeClass::ArgumentCountError => "ArgumentCountError",
            PreludeClass::PolicyException => "PolicyException",
            PreludeClass::SqlException => "SqlException",
            PreludeClass::Policy => "Policy",
            PreludeClass::NoExport => "NoExport",
            PreludeClass::Filter => "Filter",
            PreludeClass::LostPolicy => "LostPolicy",
        }
    }

    /// The class that it is under.
    pub fn parent(self) -> Option<PreludeClass>
        ensures { result ≡ parent_class self }
    {
        match self {
            PreludeClass::Exception | PreludeClass::Error => Some(PreludeClass::Throwable),
            PreludeClass::ArithmeticError | PreludeClass::TypeError | PreludeClass::ValueError => {
                Some(PreludeClass::Error)
            }
            PreludeClass::DivisionByZeroError => Some(PreludeClass::ArithmeticError),
            PreludeClass::ArgumentCountError => Some(PreludeClass::TypeError),
            PreludeClass::PolicyException | PreludeClass::SqlException => {
                Some(PreludeClass::Exception)
            }
            PreludeClass::NoExport | PreludeClass::LostPolicy => Some(PreludeClass::Policy),
            PreludeClass::Throwable | PreludeClass::Policy | PreludeClass::Filter => None,
        }
    }

    /// The methods that it declares itself, in their order.
    pub fn methods(self) -> &'static [PreludeMethod]
        ensures { result.now ≡ methods_of_class self }
    {
        match self {
            PreludeClass::Exception | PreludeClass::Error => &[
                PreludeMethod::Construct,
                PreludeMethod::GetMessage,
                PreludeMethod::GetCode,
            ],
            PreludeClass::Policy => &[PreludeMethod::Allow, PreludeMethod::MergeToItself],
            PreludeClass::NoExport | PreludeClass::LostPolicy => &[PreludeMethod::Refuse],
            PreludeClass::Filter => &[
                PreludeMethod::FilterRead,
                PreludeMethod::FilterWrite,
                PreludeMethod::FilterFunction,
            ],
            _ => &[],
        }
    }

    // The properties that it declares itself: those of an exception, and those of a lost policy.
    fn properties(self, alloc: Global) -> Result<Items<Property>, AllocError>
        ensures { IfOk result (λ list. list ≡ properties_of_class self) }
    {
        match self {
            PreludeClass::Exception | PreludeClass::Error => exception_properties(alloc),
            PreludeClass::LostPolicy => lost_properties(alloc),
            _ => Ok(Items::new(alloc)),
        }
    }

    // The declaration, as a file of the runtime would have it.
    pub(crate) fn declaration(self, alloc: Global) -> Result<ClassDecl, AllocError>
        ensures { IfOk result (λ d. d ≡ declaration_of self) }
    {
        Ok(ClassDecl {
            line: 0,
            name: Name::new(SharedBytes::from_slice(alloc, self.name().as_bytes())?),
            parent: parent_name(alloc, self.parent())?,
            properties: Shared::new(alloc, self.properties(alloc)?)?,
            methods: Shared::new(alloc, functions(alloc, self.methods())?)?,
        })
    }
}

impl PreludeMethod {
    /// The name.
    pub fn name(self) -> &'static str
        ensures { result.now ≡ method_name self }
    {
        match self {
            PreludeMethod::Construct => "__construct",
            PreludeMethod::GetMessage => "getMessage",
            PreludeMethod::GetCode => "getCode",
            PreludeMethod::Allow | PreludeMethod::Refuse => "export_check",
            PreludeMethod::MergeToItself => "merge",
            PreludeMethod::FilterRead => "filter_read",
            PreludeMethod::FilterWrite => "filter_write",
            PreludeMethod::FilterFunction => "filter_func",
        }
    }

    /// What the runtime does for a method, `None` exactly where the method is none of the runtime's.
    pub fn at(method: MethodAt) -> Option<PreludeMethod>
        ensures { result ≡ prelude_method_at method }
    {
        let class = PreludeClass::numbered(method.class)?;
        nth(class.methods(), method.index)
    }

    // The parameters, with their defaults.
    fn parameters(self, alloc: Global) -> Result<Items<Parameter>, AllocError>
        ensures { IfOk result (λ list. list ≡ parameters_of self) }
    {
        match self {
            PreludeMethod::Construct => pair(
                alloc,
                parameter(alloc, "message", Some(empty_text(alloc)?))?,
                parameter(alloc, "code", Some(zero()))?,
            ),
            PreludeMethod::GetMessage | PreludeMethod::GetCode => Ok(Items::new(alloc)),
            PreludeMethod::Allow | PreludeMethod::Refuse => one(alloc, "context"),
            PreludeMethod::MergeToItself => one(alloc, "set"),
            PreludeMethod::FilterRead | PreludeMethod::FilterWrite => two(alloc, "data", "context"),
            PreludeMethod::FilterFunction => two(alloc, "name", "args"),
        }
    }

    // The declaration, without statements.
    fn function(self, alloc: Global) -> Result<Function, AllocError>
        ensures { IfOk result (λ f. f ≡ function_of self) }
    {
        Ok(Function {
            line: 0,
            name: SharedBytes::from_slice(alloc, self.name().as_bytes())?,
            parameters: Shared::new(alloc, self.parameters(alloc)?)?,
            body: Shared::new(alloc, Items::new(alloc))?,
        })
    }
}

// The item at a place.
fn nth<T: Copy>(items: &[T], i: u32) -> Option<T>
    ensures { result ≡ slice_get items.now i }
{
    items.get(i as usize).copied()
}

// The name of a parent, where there is one.
fn parent_name(
    alloc: Global,
    parent: Option<PreludeClass>,
) -> Result<Option<SharedBytes>, AllocError>
    ensures { IfOk result (λ name. name ≡ option_map name_of parent) }
{
    match parent {
        Some(class) => Ok(Some(SharedBytes::from_slice(alloc, class.name().as_bytes())?)),
        None => Ok(None),
    }
}

// The declarations of methods, in order.
fn functions(alloc: Global, methods: &[PreludeMethod]) -> Result<Items<Function>, AllocError>
    ensures { IfOk result (λ list. list ≡ map function_of methods.now) }
{
    let mut list = Items::new(alloc);
    for method in methods {
        list.push(method.function(alloc)?)?;
    }
    Ok(list)
}

// The empty text, as a constant.
fn empty_text(alloc: Global) -> Result<Constant, AllocError>
    ensures { IfOk result (λ c. c ≡ text []) }
{
    Ok(Constant::Literal(Literal::Text(SharedBytes::from_slice(alloc, b"")?)))
}

// The number 0, as a constant.
fn zero() -> Constant
    ensures { result ≡ zero_constant }
{
    Constant::Literal(Literal::Int(0))
}

// The empty array, as a constant.
fn empty_array(alloc: Global) -> Constant
    ensures { result ≡ empty_array }
{
    Constant::Array(Items::new(alloc))
}

// A parameter.
fn parameter(alloc: Global, name: &str, default: Option<Constant>) -> Result<Parameter, AllocError>
    ensures { IfOk result (λ p. p ≡ parameter_of name.now default) }
{
    Ok(Parameter {
        name: SharedBytes::from_slice(alloc, name.as_bytes())?,
        default,
    })
}

// A list of two parameters.
fn pair(alloc: Global, a: Parameter, b: Parameter) -> Result<Items<Parameter>, AllocError>
    ensures { IfOk result (λ list. list ≡ a ∷ b ∷ []) }
{
    let mut list = Items::new(alloc);
    list.push(a)?;
    list.push(b)?;
    Ok(list)
}

// A list of a parameter that has no default.
fn one(alloc: Global, name: &str) -> Result<Items<Parameter>, AllocError>
    ensures { IfOk result (λ list. list ≡ parameter_of name.now None ∷ []) }
{
    let mut list = Items::new(alloc);
    list.push(parameter(alloc, name, None)?)?;
    Ok(list)
}

// A list of two parameters that have no default.
fn two(alloc: Global, a: &str, b: &str) -> Result<Items<Parameter>, AllocError>
    ensures { IfOk result (λ list. list ≡ parameter_of a.now None ∷ parameter_of b.now None ∷ []) }
{
    pair(
        alloc,
        parameter(alloc, a, None)?,
        parameter(alloc, b, None)?,
    )
}

// A property, with its default.
fn property(alloc: Global, name: &str, default: Constant) -> Result<Property, AllocError>
    ensures { IfOk result (λ p. p ≡ property_of name.now default) }
{
    Ok(Property {
        name: SharedBytes::from_slice(alloc, name.as_bytes())?,
        default: Some(default),
    })
}

// The properties of an exception.
fn exception_properties(alloc: Global) -> Result<Items<Property>, AllocError>
    ensures { IfOk result (λ list. list ≡ properties_of_exceptions) }
{
    let mut list = Items::new(alloc);
    list.push(property(alloc, "message", empty_text(alloc)?)?)?;
    list.push(property(alloc, "code", zero())?)?;
    Ok(list)
}

// The properties of a lost policy.
fn lost_properties(alloc: Global) -> Result<Items<Property>, AllocError>
    ensures { IfOk result (λ list. list ≡ properties_of_lost) }
{
    let mut list = Items::new(alloc);
    list.push(property(alloc, "of", empty_text(alloc)?)?)?;
    list.push(property(alloc, "fields", empty_array(alloc))?)?;
    Ok(list)
}
