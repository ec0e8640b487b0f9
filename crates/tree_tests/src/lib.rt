//! Tests of the crates from the solver on, through their public calls. Chains, assemblies and the
//! tree of the minimum cuts are tried on small graphs whose minimum cuts are known. The cactus,
//! its canonical form, listings, balances, augmentations, growth and texts are tried on small
//! trees whose sides are known.
#![tactic(auto)]

#[cfg(test)]
mod arrays;
#[cfg(test)]
mod assemblies;
#[cfg(test)]
mod augments;
#[cfg(test)]
mod balances;
#[cfg(test)]
mod cactuses;
#[cfg(test)]
mod canonicals;
#[cfg(test)]
mod chains;
#[cfg(test)]
mod counts;
#[cfg(test)]
mod flats;
#[cfg(test)]
mod graphs;
#[cfg(test)]
mod growths;
#[cfg(test)]
mod listings;
#[cfg(test)]
mod lists;
#[cfg(test)]
mod one_cut;
#[cfg(test)]
mod ranges;
#[cfg(test)]
mod scattered;
#[cfg(test)]
mod shares;
#[cfg(test)]
mod sides;
#[cfg(test)]
mod solving;
#[cfg(test)]
mod texts;
#[cfg(test)]
mod trees;
