//! The text of a picture: an SVG that needs nothing else, with no script and no font of its own.

mod captions;
pub(crate) mod document;
mod element_lists;
pub(crate) mod points;
pub(crate) mod shapes;
mod style;
pub(crate) mod width;
