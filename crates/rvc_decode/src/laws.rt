//! Laws: functions that do nothing when they run. A proof that needs one calls it.
pub use crate::expander::rows_differ;
