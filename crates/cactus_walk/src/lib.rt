//! The sides of a cactus, one after another, and its cuts as ranges of one list.
//!
//! In the order of entering, the side of each cut is one range of the vertices. So a `Walk`
//! returns one side after another, in steps for what two sides do not share, by loops and without
//! a borrow. It returns each side of a normal cactus once.
//!
//! `cut_places` returns the ranges by the borders of the blocks, so that cuts can be weighed by
//! their places alone. `kept_places` returns those of the cuts that a walk shows. `CutRanges`
//! weighs such ranges by the masses of the vertices, finds where a range first has a mass, and
//! returns its side. `masses_before` returns the mass of the vertices before each place, and
//! `put_range` puts the vertices of one range into a side.
#![tactic(auto)]

mod walk;

pub use walk::{
    CutPlaces, CutRanges, KeptPlaces, Span, Walk, cut_places, kept_places, masses_before,
    next_start, put_range,
};
