//! What this crate stands on, passed on to the crates above, which list this one alone.

/// `resin_heap`
pub mod heap {
    pub use resin_heap::{
        ClassFault, Classes, Heap, MOST_CLASSES, MOST_METHODS, MOST_OBJECTS, MethodAt, Object,
        ObjectFields, PRELUDE, PRELUDE_LEN, PreludeClass, PreludeMethod, RuntimeClasses,
        class_laws, object_laws,
    };
}

pub use resin_heap::under::{items, scalar, tree};
pub use resin_stage::under::journal;
