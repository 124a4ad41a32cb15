//! What this crate stands on, passed on to the crates above, which list this one alone.

/// `resin_value`
pub mod value {
    pub use resin_value::{
        Arr, ArrFault, CallStop, CompareFault, ErrorKind, Fields, Header, HeaderList, Key, KeyText,
        MAX_HEIGHT, ScriptFault, Spent, Ticks, Value, Values, array_laws, equal, identical, order,
    };
}

pub use resin_value::under::{bytes, lstr, scalar};
