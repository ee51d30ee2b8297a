//! Laws: functions that do nothing when they run. A proof that needs one calls it.
pub use crate::decoder::{offsets_are_even, rows_differ, rows_match_fields, valid_fits};
