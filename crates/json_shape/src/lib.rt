//! Bodies in JSON: objects, their fields, and the text of a value.
#![tactic(auto)]

mod body;
mod fields;
mod laws;
mod text;

pub use body::{MOST_DEPTH, ShapeFault, object};
pub use fields::{
    FieldFault, flag_field, list_field, number_field, object_field, present, text_field,
};
pub use laws::read_again;
pub use text::render;

#[cfg(test)]
mod tests;
