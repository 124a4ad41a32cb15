//! Classes and objects: the classes of the runtime and of scripts by their numbers, with their parents and methods, and the objects of a request
//! with their fields.
//!
//! Contracts see the classes as the list of their declarations (`specs/Classes.antt`), and objects as a class with fields by name
//! (`specs/Objects.antt`). `Classes` finds a class and a method as PHP does, but walks through no parents; `Heap` keeps every object that was made.
//! `RuntimeClasses` holds the runtime's own classes once, for all requests of a site.
//! `class_laws` and `object_laws` say what these definitions come to (`specs/Laws.antt`). `specs/Prelude.antt` has the runtime's own classes.
#![tactic(auto)]

mod branches;
mod class;
mod classes;
mod fields;
mod heap;
mod laws;
mod method_index;
mod prelude;
mod runtime;
mod table;
pub mod under;

pub use class::MOST_METHODS;
pub use classes::{ClassFault, Classes, MOST_CLASSES, MethodAt};
pub use fields::ObjectFields;
pub use heap::{Heap, MOST_OBJECTS, Object};
pub use laws::{class_laws, object_laws};
pub use prelude::{PRELUDE, PRELUDE_LEN, PreludeClass, PreludeMethod};
pub use runtime::RuntimeClasses;
