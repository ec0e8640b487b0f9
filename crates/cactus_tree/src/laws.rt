//! Laws of the flat cactus, and of normal cactuses. Each function does nothing, and its contract
//! is a law.

pub use flat_cactus::laws::{flat_form, flat_order, flat_sides};
pub use rooted_cactus::laws::{few_nodes, number_by_blocks, number_of_sides};
