//! What pictures are made of: text put together from pieces, numbers as a reader wants them, and the scales of axes.

pub mod axes;
pub mod markup;
pub mod page_text;
pub mod scales;
pub mod steps;
