// The file of answers: its numbers, its cases, and the trees that it packs. Places stop at the end of the buffer, and bytes behind it are 0.
ghost use Rattle.std.specs.Prelude.{◌<◌, ◌≤◌};

// As much of the file is read.
pub(crate) const FILE_ROOM: usize = 1000000;

// The longest tree.
pub(crate) const TREE_ROOM: usize = 229372;

// What a case says, and where its tree's parts, its image and the next case start.
#[derive(Clone, Copy)]
pub struct Case {
    pub mode: u64,
    pub parts: usize,
    pub tree: usize,
    pub work: usize,
    pub room: usize,
    pub number: usize,
    pub place: usize,
    pub length: usize,
    pub checksum: usize,
    pub shown: usize,
    pub image: usize,
    pub next: usize,
}

// So many bytes on in the file, or its end.
pub(crate) fn forth(at: usize, n: usize) -> usize
    ensures { result ≤ 1000000 }
{
    at.saturating_add(n).min(FILE_ROOM)
}

pub(crate) fn byte(text: &[u8], at: usize) -> u8 {
    text.get(at).copied().unwrap_or(0)
}

// Two bytes, the high one first.
pub(crate) fn short(text: &[u8], at: usize) -> usize
    ensures { result < 65536 }
{
    usize::from(byte(text, at)) * 256 + usize::from(byte(text, forth(at, 1)))
}

// Four bytes.
pub(crate) fn long(text: &[u8], at: usize) -> usize
    ensures { result < 4294967296 }
{
    short(text, at) * 65536 + short(text, forth(at, 2))
}

// Eight bytes.
fn whole(text: &[u8], at: usize) -> u64 {
    (long(text, at) as u64) * 4294967296 + long(text, forth(at, 4)) as u64
}

// Where a part's steps start: after its count, its pattern's length and its pattern.
fn steps_of(text: &[u8], part: usize) -> usize {
    forth(forth(part, 6), short(text, forth(part, 4)))
}

// Where the part ends.
fn after_part(text: &[u8], part: usize) -> usize {
    let steps = steps_of(text, part);
    forth(forth(steps, 2), 4 * short(text, steps))
}

// Where the parts of a tree end.
fn after_parts(text: &[u8], at: usize) -> usize {
    let mut part = forth(at, 2);
    for _ in 0..short(text, at) {
        part = after_part(text, part);
    }
    part
}

pub(crate) fn case_at(text: &[u8], at: usize) -> Case {
    let parts = forth(at, 8);
    let numbers = after_parts(text, parts);
    let shown = long(text, forth(numbers, 28));
    let image = forth(numbers, 32);
    Case {
        mode: whole(text, at),
        parts,
        tree: long(text, numbers),
        work: long(text, forth(numbers, 4)),
        room: long(text, forth(numbers, 8)),
        number: long(text, forth(numbers, 12)),
        place: long(text, forth(numbers, 16)),
        length: long(text, forth(numbers, 20)),
        checksum: long(text, forth(numbers, 24)),
        shown,
        image,
        next: forth(image, shown),
    }
}

// ---- trees
// stays: a buffer with a length beside, filled again for each case: a word that grows at its end reads the byte that an earlier case left behind it.

// So many bytes on in a tree, or its end.
fn onward(at: usize, n: usize) -> usize
    ensures { result ≤ 229372 }
{
    at.saturating_add(n).min(TREE_ROOM)
}

fn put(tree: &mut [u8], at: usize, b: u8) {
    if let Some(place) = tree.get_mut(at) {
        *place = b;
    }
}

// A pattern's bytes.
fn copy(text: &[u8], from: usize, size: usize, tree: &mut [u8], to: usize) {
    for i in 0..size {
        put(tree, onward(to, i), byte(text, forth(from, i)));
    }
}

// A word in repetition j: the pattern's own, and j times its growth.
fn grown(old: usize, j: usize, by: usize) -> usize
    ensures { result < 65536 }
{
    (old % 65536 + j % 65536 * (by % 65536)) % 65536
}

// The growing words of a pattern that was copied, in repetition j.
fn grow(text: &[u8], steps: usize, tree: &mut [u8], from: usize, j: usize) {
    for i in 0..short(text, steps) {
        let step = forth(steps, 2 + 4 * i);
        let high = onward(from, short(text, step));
        let low = onward(high, 1);
        let old = usize::from(byte(tree, high)) * 256 + usize::from(byte(tree, low));
        let new = grown(old, j, short(text, forth(step, 2)));
        put(tree, high, (new / 256) as u8);
        put(tree, low, (new % 256) as u8);
    }
}

// A part, behind the bytes before it; where it ends. An empty pattern is not repeated.
fn expand(text: &[u8], part: usize, tree: &mut [u8], from: usize) -> usize {
    let size = short(text, forth(part, 4));
    if size == 0 {
        return from;
    }
    let pattern = forth(part, 6);
    let steps = steps_of(text, part);
    let mut end = from;
    for j in 0..long(text, part) {
        if TREE_ROOM <= end {
            break;
        }
        copy(text, pattern, size, tree, end);
        grow(text, steps, tree, end, j);
        end = onward(end, size);
    }
    end
}

// The tree whose parts stand at a place; its length.
pub(crate) fn build(text: &[u8], at: usize, tree: &mut [u8]) -> usize {
    let mut part = forth(at, 2);
    let mut end = 0;
    for _ in 0..short(text, at) {
        end = expand(text, part, tree, end);
        part = after_part(text, part);
    }
    end
}
