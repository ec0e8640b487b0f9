//! Beside the program: the rooted cactus, a tree of nodes joined by bridges and cycles, which
//! shows many cuts in little room.
//!
//! A `Cactus` over n vertices is a tree whose nodes hold the vertices 1 to n, each vertex in
//! exactly one node, and vertex 1 in the root. A bridge cuts off all that is below it. A cycle
//! cuts off each interval of its children with all that is below these. The side of a cut is the
//! set of the vertices cut off. Contracts see a cactus as n and its root, and read the tree by a
//! few words. `entered` has the vertices of the nodes, in the order of entering. `cuts` has each
//! cut as a set, and `sides_of` the same as ascending lists. `widths` has the number of children
//! of each cycle.
//!
//! The representation of all minimum cuts by such a tree is due to Dinitz, Karzanov and Lomonosov
//! (1976). Each call takes time in proportion to the nodes and vertices that it reads, and
//! `spread` also sorts what it writes. Most calls work by loops. `spread` and `rename_node` put
//! other vertices in place of those of a tree. `normal` removes the nodes and bridges that can be
//! spared, and `is_normal_within` says whether there are any. `count_within` counts the sides of a
//! normal cactus. `nodes`, `is_normal` and `count` take no memory, and call themselves once for
//! each level.
//!
//! A `Walk` returns the sides one after another, those of a normal cactus each once, by loops and
//! without a borrow. In the order of entering each side is one range of the vertices, so each step
//! changes only what two sides do not share. `cut_places` returns these ranges by the borders of
//! the blocks, so that cuts can be weighed by their places alone. `put_range` puts the vertices of
//! one range into a side.
//!
//! In a normal cactus every cycle has three or more nodes, and every empty node lies in two or
//! more blocks. If an empty node lies in exactly two blocks, these are cycles. Over n vertices a
//! normal cactus with a block has at most 2n - 2 nodes (`laws::few_nodes`). Its different sides
//! are counted by its blocks (`laws::number_by_blocks`).
//!
//! `flatten` numbers the nodes, and returns a `FlatCactus` with the bridges and cycles by these
//! numbers, in loops. Its cuts remove one bridge or two edges of a cycle, and cut off what node 0
//! then no longer reaches. They have the sides of the tree: `laws::flat_sides`.
#![tactic(auto)]

pub mod laws;

pub use cactus_walk::{
    CutPlaces, KeptPlaces, Span, Walk, cut_places, kept_places, masses_before, next_start,
    put_range,
};
pub use flat_cactus::{FlatCactus, flatten};
pub use rooted_cactus::{
    Block, Blocks, Border, Cactus, Children, Node, VertexList, rename_node, stack_inner,
    subtree_sizes, vertices_by_class, vertices_in_order,
};
