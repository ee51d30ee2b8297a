//! Laws: functions that do nothing when they run. A proof that needs one calls it.
pub use crate::regions::{
    accesses_belong_to_one_region, an_address_lies_in_one_region, bytes_of_a_region_belong_together,
};
