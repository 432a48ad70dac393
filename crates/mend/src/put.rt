// The jumps of a copied image replaced, and listed.
ghost use Rattle.std.specs.Prelude.{◌≡◌, true, cond, [], ◌∷◌, ◌++◌, ◌+◌, ◌*◌, ◌<◌, ◌≤◌, length, get_or, drop};
ghost use Rattle.std.proofs.lemmas.List.Edits.{sets};
ghost use Rattle.meaning.specs.Check.{framed};
ghost use Rattle.meaning.specs.Image.{word};
ghost use Rattle.meaning.specs.Mend.{mended_copy, listed_in, list_bytes};
ghost use Rattle.reader.specs.Laid.{Ordered};
ghost use Rattle.mend.specs.Course.{met_field, hit, hits};

use crate::walk::Course;
use fields::{Field, Fields};

// Return 0 0 0: an instruction's first four bytes.
const RETURN: [u8; 4] = [20, 0, 0, 0];

// An instruction that returns nothing, at its place. Its mark stays.
fn put_return(out: &mut [u8], at: usize)
    requires { at + 4 ≤ length out.old }
    ensures { out.new ≡ sets out.old at (20 ∷ 0 ∷ 0 ∷ 0 ∷ []) }
{
    out[at..at + 4].copy_from_slice(&RETURN);
}

// The low 16 bits, the high byte first.
fn short(n: usize) -> [u8; 2]
    ensures { result ≡ word n }
{
    ((n % 65536) as u16).to_be_bytes()
}

// Prototype and index, and the four bytes that stood in the instruction.
fn put_entry(list: &mut [u8], at: usize, prototype: usize, index: usize, old: &[u8])
    requires { (at + 8 ≤ length list.old) × (4 ≤ length old.now) }
    ensures { list.new ≡ sets list.old at (word prototype ++ (word index ++ (get_or old.now 0 0 ∷ get_or old.now 1 0 ∷ get_or old.now 2 0 ∷ get_or old.now 3 0 ∷ []))) }
{
    list[at..at + 2].copy_from_slice(&short(prototype));
    list[at + 2..at + 4].copy_from_slice(&short(index));
    list[at + 4..at + 8].copy_from_slice(&old[..4]);
}

// A field that stands at `at` in the output: replaced, and listed, where it is to be. The bytes that the list gained.
// stays: output and list each with its place: a struct of the four would be made and lent in the one loop below, and say of both loans that they are the same.
fn put_field(
    field: Field,
    tag: u8,
    course: Course,
    out: &mut [u8],
    at: usize,
    list: &mut [u8],
    listed: usize,
) -> usize
    requires { (course.code < 65536) × (at + (3 + length field.payload.now) ≤ length out.old) × (listed + length (list_bytes (hits tag course (met_field field))) ≤ length list.old) }
    ensures { (result ≡ length (list_bytes (hits tag course (met_field field.entry)))) × (out.new ≡ cond (hit tag course (met_field field.entry)) (sets out.old (at + 3) (20 ∷ 0 ∷ 0 ∷ 0 ∷ [])) out.old) × (list.new ≡ sets list.old listed (list_bytes (hits tag course (met_field field.entry)))) }
{
    if course.is_hit(field, tag) {
        put_return(out, at + 3);
        put_entry(list, listed, course.met - 1, course.index, field.payload);
        return 8;
    }
    0
}

// Of an image in order that stands at the front of the output.
pub(crate) fn put_all(image: &[u8], tag: u8, out: &mut [u8], list: &mut [u8])
    requires { Ordered image.now tag × (framed image.now ≡ true) × (out.old ≡ image.now ++ drop (length image.now) out.old) × (8 * length (listed_in tag image.now) ≤ length list.old) }
    ensures { (out.new ≡ mended_copy tag image.now ++ drop (length image.now) out.old) × (list.new ≡ list_bytes (listed_in tag image.now) ++ drop (length (list_bytes (listed_in tag image.now))) list.old) }
{
    let mut course = Course::default();
    let mut at = 0;
    let mut listed = 0;
    for field in Fields::new(image) {
        listed += put_field(field, tag, course, out, at, list, listed);
        course = course.after(field, tag);
        at += 3 + field.payload.len();
    }
}
