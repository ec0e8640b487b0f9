//! Contraction of a list of edges by forests, before a graph has rows.
//!
//! The edges are taken in the order of the list, and each is put into the first of some forests
//! whose trees it does not close. An edge whose ends were joined in the first forests before is in
//! as many edge-disjoint ways across each cut that parts them, so where these and its own weight
//! reach a bound, no cut that weighs less parts its ends, and they are made one. These are the
//! forests of Nagamochi and Ibaraki (1992) for an order that is given; a forest stands here for a
//! step of the weight. The search for a cut below the bound, where contraction comes to a stand,
//! is that of VieCut (Henzinger, Noe, Schulz and Strash, 2018) in kind: pairs are contracted that
//! are probably on one side.
#![tactic(auto)]

mod forests;
mod leaning;
mod shrinking;
mod tying;

pub use shrinking::{
    Contracted, FEW_EDGES, WithTies, contract_from_degree, contract_list, contract_measured,
    contract_with_ties, is_tenth_less,
};
pub use tying::{Ties, WeightRange, tied_classes};
