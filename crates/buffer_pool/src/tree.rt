//! A tree of truth values in one list: node 1 is the root, and nodes 2 q and 2 q + 1 are below
//! node q. A node above the leaves is true where one of the two below it is.
ghost use Rattle.std.specs.Prelude.{◌≡◌, ◌≢◌, ◌<◌, ◌≤◌, ◌+◌, ◌*◌, ◌^◌, ◌||◌, ℕ, Bool, true, false};
ghost use Rattle.std.specs.Prelude.{length, slice_index_or};
ghost use Rattle.buffer_pool.specs.Tree.{IsJoined, doubled, value_at};

/// How high a tree has to be, and how many leaves it then has, for this number of places.
pub fn shape_for(places: u32) -> (u32, usize)
    ensures power { result.1 ≡ doubled result.0 1 }
    ensures room { places ≤ result.1 }
    ensures few { result.1 < 2 ^ 33 }
{
    let mut height = 0;
    let mut leaves = 1;
    while leaves < places as usize {
        leaves *= 2;
        height += 1;
    }
    (height, leaves)
}

/// Joins the values above a node that may have changed: `node`, the node above it, and so on up to
/// the first whose value stays. All other nodes have to be joined.
pub fn join_up(tree: &mut [bool], node: usize)
    requires inner { 2 * node + 1 < length tree.old }
    requires others { (q : ℕ) → 0 < q → 2 * q + 1 < length tree.old → q ≢ node
        → IsJoined tree.old q }
    ensures joined { (q : ℕ) → 0 < q → 2 * q + 1 < length tree.new → IsJoined tree.new q }
    ensures leaves { (p : ℕ) → length tree.old ≤ 2 * p → value_at tree.new p ≡ value_at tree.old p }
{
    let mut node = node;
    while node > 0 {
        let joined = either(tree[2 * node], tree[2 * node + 1]);
        if tree[node] == joined {
            return;
        }
        tree[node] = joined;
        node /= 2;
    }
}

fn either(a: bool, b: bool) -> bool
    ensures { result ≡ (a || b) }
{
    a || b
}

/// The first leaf that is true. The root has to be true, and all nodes above the leaves joined.
pub fn first_leaf(tree: &[bool], height: u32) -> usize
    requires root { value_at tree.now 1 ≡ true }
    requires size { length tree.now ≡ 2 * doubled height 1 }
    requires joined { (q : ℕ) → 0 < q → 2 * q + 1 < length tree.now → IsJoined tree.now q }
    ensures leaf { length tree.now ≤ 2 * result }
    ensures within { result < length tree.now }
    ensures value { value_at tree.now result ≡ true }
    ensures first { (p : ℕ) → length tree.now ≤ 2 * p → p < result → value_at tree.now p ≡ false }
{
    let mut node = 1;
    let mut levels = height;
    while levels > 0 {
        levels -= 1;
        node = lower(tree, node);
    }
    node
}

/// The first of the two nodes below a true node that is true.
fn lower(tree: &[bool], node: usize) -> usize
    requires { 2 * node + 1 < length tree.now }
    ensures left { value_at tree.now (2 * node) ≡ true → result ≡ 2 * node }
    ensures right { value_at tree.now (2 * node) ≡ false → result ≡ 2 * node + 1 }
{
    if tree[2 * node] {
        2 * node
    } else {
        2 * node + 1
    }
}
