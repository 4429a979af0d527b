//! A picture of a run, made from the text of its history: one page of HTML and SVG.
//!
//!     text  ->  reading: shape and entries  ->  tracking: who, what and why  ->  page
#![tactic(auto)]

mod drawing;
mod entries;
mod kinds;
mod page;
mod parsing;
mod picture;
mod reading;
mod template;
mod tracking;

pub use crate::entries::{add_line, fault_name, shape_line};
pub use crate::picture::{Page, PictureFault, draw_page};
pub use crate::template::PAGE_FRONT;
