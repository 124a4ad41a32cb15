//! What this crate stands on, passed on to the crates above, which list this one alone.

pub use resin_joint as joint;
pub use resin_plan as plan;
pub use resin_rows as rows;
pub use resin_sql as sql;
