// The numbers that a drawing of a plan goes by, and the plan with its look and its numbers as one value.
#![tactic(auto)]

mod layout;
mod view;

pub use layout::Layout;
pub use view::View;
