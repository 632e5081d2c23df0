/// The functions of `depth` in other forms: a summary updated where it stands, as in the Rust, and a row's runs as spans in place of tile numbers.
pub mod listed;
pub mod runs;
pub mod spans;
pub mod summary;

pub use listed::list_visible_spans;
pub use runs::{run_at, runs_of, write_runs};
pub use spans::{Visible, visible_spans};
pub use summary::{include_span, included_span};
