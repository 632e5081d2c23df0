/// Painting one row by one step, over its own words. Parts: where a function asks something, its callers have judged it.
pub mod fills;
pub mod marks;
pub mod reading;
pub mod step;

pub use marks::Mark;
pub use reading::{Attributes, StoredRow};
pub use step::step_row;
