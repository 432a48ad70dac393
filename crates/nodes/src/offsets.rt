// Where each node stands: the table of offsets at the end of the work area, which the check has noted, and what a header says.
ghost use Rattle.std.specs.Prelude.{◌≡◌, ◌+◌, ◌-◌, ◌<◌, ◌≤◌, length, get_or};
ghost use Rattle.meaning.specs.Fields.{fields, field_at};
ghost use Rattle.meaning.specs.At.{tag_of, count_of, file_words};
ghost use Rattle.nodes.specs.Offsets.{Readable};

// The byte at which a node's header starts.
fn start_of(work: &[u32], node: usize) -> usize
    requires { node < length work.now }
    ensures { result ≡ get_or work.now (length work.now - 1 - node) 0 }
{
    let place = work.len() - 1 - node;
    work[place] as usize
}

pub fn tag_of(tree: &[u8], work: &[u32], node: usize) -> u8
    requires { Readable tree.now work.now node }
    ensures { result ≡ tag_of (fields tree.now) node }
{
    let start = start_of(work, node);
    tree[start]
}

// A node's payload: a part of the lent tree.
pub fn payload_of<'a>(tree: &'a [u8], work: &[u32], node: usize) -> &'a [u8]
    requires { Readable tree.now work.now node }
    ensures { result.now ≡ (field_at (fields tree.now) node).payload }
{
    let start = start_of(work, node);
    let size = fields::word(tree, start + 1);
    let from = start + 3;
    let end = from + size;
    &tree[from..end]
}

// How many words a node has, where the file has `skew` more: one for each wide mark.
pub fn count_of(tree: &[u8], work: &[u32], node: usize, skew: usize) -> usize
    requires { Readable tree.now work.now node × (length (file_words (fields tree.now) node) ≡ count_of (fields tree.now) node + skew) }
    ensures { (result ≡ count_of (fields tree.now) node) × (result < 65536) }
{
    let start = start_of(work, node);
    fields::word(tree, start + 1) / 2 - skew
}
