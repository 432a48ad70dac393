// Refusals 4 and 5, from what the walk over the fields left in the scratch.
ghost use Rattle.std.specs.Prelude.{◌≡◌, ℕ, ◌<◌, ◌≤◌, not, length, take, position, leb};
ghost use Rattle.tree.specs.Scratch.{once, first, Owned, Linked, next_depth, depth_in, Beyond};

// The word of a node that is a child exactly once.
fn is_once(word: u32) -> bool
    ensures { result ≡ once word }
{
    256 <= word && word < 16776960
}

// The lowest node below `last` that is not a child exactly once.
pub(crate) fn first_unowned(scratch: &[u32], last: usize) -> Option<usize>
    requires { last ≤ length scratch.now }
    ensures { result ≡ position (λ (word : ℕ). not (once word)) (take last scratch.now) }
{
    scratch[..last].iter().position(|word| !is_once(*word))
}

// The depth of node c of n, where the words of the nodes above it are their depths.
fn depth_at(scratch: &[u32], n: usize, c: usize) -> u32
    requires { (c < n) × Linked scratch.now n c }
    ensures { result ≡ next_depth scratch.now n c }
{
    if c + 1 == n {
        return 1;
    }
    let parent = scratch[c] as usize / 256 - 1;
    scratch[parent] + 1
}

// The lowest of n nodes that is deeper than 128. A parent stands above its children, so one pass from the last node down will do; a node's depth takes
// the place of what was noted of it.
pub(crate) fn first_deep(scratch: &mut [u32], n: usize) -> Option<usize>
    requires { Owned scratch.old n }
    ensures lowest { result ≡ first (λ (c : ℕ). leb (depth_in scratch.old n c) 128) n }
    ensures beyond { Beyond n scratch.old scratch.new }
{
    let mut deep: Option<usize> = None;
    for c in (0..n).rev() {
        let depth = depth_at(scratch, n, c);
        scratch[c] = depth;
        if 128 < depth {
            deep = Some(c);
        }
    }
    deep
}
