//! Laws of images on which no code rests. Each is the contract of a function that the program never calls.
#![tactic(auto)]

mod map;

pub use map::an_image_is_loaded_as_its_map;
