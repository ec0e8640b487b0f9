//! A tree of maxima over numbers, also called a tournament tree, in one slice. Node 1 is the root,
//! the nodes 2 i and 2 i + 1 are below node i, and the numbers are the second half, the leaves.

ghost use Rattle.std.specs.Prelude.{◌≡◌, ℕ, ◌+◌, ◌*◌, ◌<◌, ◌≤◌, ◌^◌, length, slice_index};
ghost use Rattle.capped_scan.specs.Maxima.{IsMaxTree, IsWritten};

/// Computes the inner nodes from the leaves.
fn build(tree: &mut [u64], size: usize)
    requires long { length tree.old ≡ 2 * size }
    ensures tree { IsMaxTree size tree.new }
    ensures leaves { (j : ℕ) → size ≤ j → slice_index tree.new j ≡ slice_index tree.old j }
{
    let mut node = size;
    while node > 1 {
        node -= 1;
        tree[node] = tree[2 * node].max(tree[2 * node + 1]);
    }
}

/// Writes the number 1 into the leaves 1 to n, and computes the inner nodes. Leaf 0 and those
/// after n are unchanged. O(size).
pub fn write_ones(tree: &mut [u64], size: usize, n: usize)
    requires long { length tree.old ≡ 2 * size }
    requires room { n < size }
    ensures tree { IsMaxTree size tree.new }
    ensures ones { (v : ℕ) → 1 ≤ v → v ≤ n → slice_index tree.new (size + v) ≡ 1 }
    ensures first { slice_index tree.new size ≡ slice_index tree.old size }
    ensures rest { (v : ℕ) → n < v → slice_index tree.new (size + v) ≡ slice_index tree.old (size + v) }
{
    for v in 1..n + 1 {
        tree[size + v] = 1;
    }
    build(tree, size);
}

/// Writes a number into a leaf, and updates the nodes above it as far as they change. O(log size).
pub fn write(tree: &mut [u64], size: usize, leaf: usize, number: u64)
    requires tree { IsMaxTree size tree.old }
    requires low { size ≤ leaf }
    requires high { leaf < 2 * size }
    ensures { IsWritten size leaf number tree.old tree.new }
{
    tree[leaf] = number;
    let mut node = leaf;
    while node > 1 {
        node /= 2;
        let greater = tree[2 * node].max(tree[2 * node + 1]);
        if tree[node] == greater {
            return;
        }
        tree[node] = greater;
    }
}

/// The first leaf with the greatest number, in a tree of this height. O(height).
pub fn first_greatest(tree: &[u64], height: u32) -> usize
    requires { IsMaxTree (2 ^ height) tree.now }
    ensures low { 2 ^ height ≤ result }
    ensures high { result < 2 * 2 ^ height }
    ensures greatest { (j : ℕ) → 2 ^ height ≤ j → j < 2 * 2 ^ height → slice_index tree.now j ≤ slice_index tree.now result }
    ensures first { (j : ℕ) → 2 ^ height ≤ j → j < result → slice_index tree.now j < slice_index tree.now result }
{
    let greatest = tree[1];
    let mut node = 1;
    for _level in 0..height {
        node *= 2;
        if tree[node] < greatest {
            node += 1;
        }
    }
    node
}
