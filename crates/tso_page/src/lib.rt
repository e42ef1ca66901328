//! A run as a page: one HTML file with the run as a picture, which loads nothing from elsewhere; and its states as data.
#![tactic(auto)]

mod data;
mod escape;
mod html;
mod lanes;
mod laws;
mod page;
mod parts;

pub use data::push_state_data;
pub use escape::{push_data, push_escaped};
pub use laws::{data_is_no_markup, escaped_text_is_no_markup};
pub use page::{Run, page_of};
