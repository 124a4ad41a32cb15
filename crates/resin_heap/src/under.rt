//! What this crate stands on, passed on to the crates above, which list this one alone.

pub use resin_items as items;
pub use resin_scan as scan;
pub use resin_tree as tree;
/// `resin_value`
pub mod value {
    pub use resin_value::{
        Arr, ArrFault, CallStop, CompareFault, ErrorKind, Fields, Header, HeaderList, Key, KeyText,
        MAX_HEIGHT, ScriptFault, Spent, Ticks, Value, Values, array_laws, equal, identical, order,
    };
}

pub use resin_value::under::{bytes, label, lstr, scalar};
