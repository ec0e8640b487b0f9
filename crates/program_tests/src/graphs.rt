//! Graphs as METIS text.

/// A triangle whose edges weigh 1.
pub const TRIANGLE: &[u8] = b"3 3\n2 3\n1 3\n1 2\n";

/// A path of three vertices whose edges weigh 5.
pub const PATH: &[u8] = b"3 2 1\n2 5\n1 5 3 5\n2 5\n";

/// A ring of four vertices whose edges weigh 1.
pub const SQUARE: &[u8] = b"4 4\n2 4\n1 3\n2 4\n1 3\n";

/// The complete graph of four vertices whose edges weigh 1.
pub const COMPLETE: &[u8] = b"4 6\n2 3 4\n1 3 4\n1 2 4\n1 2 3\n";

/// A triangle with the weights 5, 1 and 4.
pub const HEAVY_PAIR: &[u8] = b"3 3 1\n2 5 3 1\n1 5 3 4\n1 1 2 4\n";

/// A path whose first vertex has mass 9, and the others mass 1.
pub const HEAVY_END: &[u8] = b"4 3 10\n9 2\n1 1 3\n1 2 4\n1 3\n";

/// One edge of weight 3 between two vertices of masses 7 and 4, with comments, a tab and carriage
/// returns.
pub const COMMENTED: &[u8] = b"% made by hand\r\n2\t1 011\r\n% first vertex\r\n7 2 3\r\n4 1 3";

/// Two vertices with an edge of weight 7.
pub const ONE_EDGE: &[u8] = b"2 1 1\n2 7\n1 7\n";

/// A graph whose cactus has two cycles that meet in a node without vertices.
pub const TWO_CYCLES: &[u8] =
    b"6 8 1\n2 2 4 1 6 1\n1 2 3 2\n2 2 4 1 6 1\n1 1 3 1 5 2\n4 2 6 2\n1 1 3 1 5 2\n";

/// Four vertices in two components of one edge each.
pub const TWO_PIECES: &[u8] = b"4 2\n2\n1\n4\n3\n";

/// One vertex without an edge.
pub const ONE_VERTEX: &[u8] = b"1 0\n\n";

/// A graph without vertices.
pub const NO_VERTEX: &[u8] = b"0 0\n";
