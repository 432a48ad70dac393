// Frame, and which field may follow which (specs/Follow).
ghost use Rattle.std.specs.Prelude.{◌≡◌, true, ◌&&◌, eqb, ltb, ◌+◌, ◌<◌, ◌≤◌, length};
ghost use Rattle.meaning.specs.Fields.{fields, left, front, whole};
ghost use Rattle.meaning.specs.Images.{inst_size};
ghost use Rattle.meaning.specs.Follow.{at_first, stray};
ghost use Rattle.reader.specs.Glance.{Glanced, whole_seen, follows_seen, due_seen, ready, less, Run};
ghost use Rattle.reader.specs.Spots.{spot_of};

use fields::{Fields, is_whole, word};
use meaning::Due;

// The whole fields of a file, and the bytes that stand after them.
#[derive(Clone, Copy)]
pub struct Framed {
    pub count: usize,
    pub after: usize,
}

// How many whole fields there are, and how many bytes stand after them.
pub fn frame(image: &[u8]) -> Framed
    ensures { (result.count ≡ length (fields image.now)) × (result.after ≡ length (left image.now)) }
{
    let mut count: usize = 0;
    let mut after = image.len();
    for field in Fields::new(image) {
        count += 1;
        after -= 3 + field.payload.len();
    }
    Framed { count, after }
}

// What is read of a field to judge it: its tag and its length; of two bytes the first; of a header the counts.
#[derive(Clone, Copy)]
pub struct Seen {
    pub tag: u8,
    pub size: usize,
    pub first: usize,
    pub captures: usize,
    pub code: usize,
}

// The field at the front.
fn glance(t: &[u8]) -> Seen
    requires { whole t.now ≡ true }
    ensures { Glanced (front t.now) result }
{
    let seen = Seen {
        tag: t[0],
        size: word(t, 1),
        first: 0,
        captures: 0,
        code: 0,
    };
    match seen.size {
        10 => Seen {
            captures: word(t, 9),
            code: word(t, 11),
            ..seen
        },
        2 => Seen {
            first: usize::from(t[3]),
            ..seen
        },
        _ => seen,
    }
}

// stays: tags are bytes, since any byte of an image may stand for one: an enum would be made of it here, and specs/Glance has the numbers.
// A header or a constant can follow where a prototype is whole.
fn whole_seen(d: Due, r: Seen) -> bool
    ensures { result ≡ whole_seen d r }
{
    ((((r.tag == 0x41) & (r.size == 10)) & (0 < r.code))
        & ((d.prototypes < 256) & (d.constants == 0)))
        | ((((r.tag == 0x44) & (r.size == 8))
            | (((r.tag == 0x45) & (r.size == 2)) | ((r.tag == 0x46) & (r.size == 2))))
            & ((0 < d.prototypes) & (d.constants < 1024)))
}

// It can follow.
fn follows_seen(tag: u8, size: usize, d: Due, r: Seen) -> bool
    ensures { result ≡ follows_seen tag size d r }
{
    ((0 < d.captures) & (((r.tag == 0x42) & (r.size == 2)) & (r.first <= 1)))
        | ((d.captures == 0)
            & (((0 < d.code) & ((r.tag == tag) & (r.size == size)))
                | ((d.code == 0) & whole_seen(d, r))))
}

// What is due after it.
fn due_seen(d: Due, r: Seen) -> Due
    requires { (d.prototypes + 1 < 18446744073709551616) × (d.constants + 1 < 18446744073709551616) }
    ensures { result ≡ due_seen d r }
{
    if 0 < d.captures {
        return Due {
            captures: d.captures - 1,
            ..d
        };
    }
    if 0 < d.code {
        return Due {
            captures: 0,
            code: d.code - 1,
            ..d
        };
    }
    if r.tag == 0x41 {
        return Due {
            captures: r.captures,
            code: r.code,
            prototypes: d.prototypes + 1,
            constants: 0,
        };
    }
    Due {
        captures: 0,
        code: 0,
        constants: d.constants + 1,
        ..d
    }
}

// The bytes of an instruction's payload.
pub fn inst_size(tag: u8) -> usize
    ensures { result ≡ inst_size tag }
{
    if tag == 0x47 {
        return 8;
    }
    6
}

// The end may come.
fn may_end(d: Due) -> bool
    ensures { result ≡ (eqb d.captures 0 && (eqb d.code 0 && ltb 0 d.prototypes)) }
{
    (d.captures == 0) & ((d.code == 0) & (0 < d.prototypes))
}

// The instructions that are due at once: none while captures are.
fn ready(d: Due) -> usize
    ensures { result ≡ ready d }
{
    if d.captures == 0 {
        return d.code;
    }
    0
}

// So many instructions fewer.
fn less(d: Due, m: usize) -> Due
    requires { m ≤ d.code }
    ensures { result ≡ less d m }
{
    Due {
        code: d.code - m,
        ..d
    }
}

// How many of n fields from the front on are whole instructions. They are of one size, so the next one's place is known before a length is read.
fn run(t: &[u8], tag: u8, size: usize, n: usize) -> usize
    requires { size ≤ 8 }
    ensures { Run t.now tag size n result }
{
    let span = 3 + size;
    let most = n.min(t.len() / span);
    for i in 0..most {
        let at = i * span;
        if (t[at] != tag) | (word(t, at + 1) != size) {
            return i;
        }
    }
    most
}

// What one walk tells: the whole fields, the bytes after them, the first field that cannot follow, or the field count where the end is too soon.
#[derive(Clone, Copy)]
pub struct Walked {
    pub framed: Framed,
    pub spot: Option<usize>,
}

// Frame and order in one walk. Where a field cannot follow, the fields are counted from the first on: 19 is of the whole input.
pub fn order(image: &[u8], tag: u8) -> Walked
    ensures { (result.framed.count ≡ length (fields image.now)) × (result.framed.after ≡ length (left image.now)) × (spot_of result.spot ≡ stray tag at_first (fields image.now)) }
{
    let size = inst_size(tag);
    let mut t = image;
    let mut d = Due {
        captures: 0,
        code: 0,
        prototypes: 0,
        constants: 0,
    };
    let mut i: usize = 0;
    // stays: a turn passes a field and the run of instructions behind it, which no iterator hands on as one item.
    while is_whole(t) {
        let seen = glance(t);
        if !follows_seen(tag, size, d, seen) {
            return Walked {
                framed: frame(image),
                spot: Some(i),
            };
        }
        d = due_seen(d, seen);
        let k = 3 + seen.size;
        t = &t[k..];
        let m = run(t, tag, size, ready(d));
        let q = m * (3 + size);
        t = &t[q..];
        d = less(d, m);
        i = i + 1 + m;
    }
    let framed = Framed {
        count: i,
        after: t.len(),
    };
    if may_end(d) {
        return Walked { framed, spot: None };
    }
    Walked {
        framed,
        spot: Some(i),
    }
}
