//! The image of the lightbulb's firmware: what its runs on the machine may do.
#![tactic(auto)]

mod laws;

pub use laws::firmware_images_stay_good;
