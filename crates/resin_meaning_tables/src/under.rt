//! What this crate stands on, passed on to the crates above, which list this one alone.

/// `resin_meaning`
pub mod meaning {
    pub use resin_meaning::{
        create_table, delete_row, file_exists, insert_row, read_file, remove_file, table_columns,
        table_rows, update_row, write_file,
    };
}

pub use resin_meaning::under::{base, store};
pub use resin_sql_more as sql_more;
pub use resin_sql_more::under::{joint, plan, rows, sql};
