//! Sets that grow by vertices that are certified one after another: what each certificate says,
//! and what the contraction of the grown sets keeps.
#![tactic(auto)]

mod certificate;
mod contraction;
mod effort;
mod growing;
mod grown_set;
mod hanging;
mod kernel;
pub mod laws;
mod pair;
mod ranges;
mod reach;

pub use certificate::Rule;
pub use contraction::{Grown, contract_at_bound, contract_sets};
pub use effort::Limits;
pub use grown_set::{GrownSet, Share, grow_shares, labels_of_sets};
pub use hanging::tree_with_leaves;
pub use kernel::grown_kernel;
