// Images read back (document 02, E1): frame, order and counts, then the facts of demand 3 at every instruction.
#![tactic(auto)]

mod facts;
mod locate;
mod marks;
mod order;
mod rules;
mod texts;
mod width;

ghost use Rattle.std.specs.Prelude.{◌≡◌, ◌⊎◌, ℕ, ◌*◌, ◌<◌, ◌≤◌, length};
ghost use Rattle.meaning.specs.Fields.{fields, word_at};
ghost use Rattle.meaning.specs.Image.{flag};
ghost use Rattle.meaning.specs.Images.{Image, image_of, parts};
ghost use Rattle.meaning.specs.Rules.{is_text};
ghost use Rattle.meaning.specs.Steps.{inst_at};
ghost use Rattle.meaning.specs.Reader.{broken, ruled, image_tag, read_image, read_outcome};
ghost use Rattle.meaning.specs.Mend.{read_mended};
ghost use Rattle.reader.specs.Spots.{spot_of};
ghost use Rattle.reader.specs.Lens.{lens_image, read_by};
ghost use Rattle.reader.specs.Right.{Table};
ghost use Rattle.reader.specs.Laid.{proto_in, proto_span, part_from, Ordered, Located};

pub use facts::is_replaced;
pub use locate::{heads, prototype};
use meaning::{Cause, Instruction, Refusal};
pub use order::inst_size;
pub use width::image_tag;

// What the facts tell: 20 at the first that fails, or the number of fields.
fn ruled(spot: Option<usize>, count: usize) -> Result<usize, Refusal>
    ensures { (im : Image) → result ≡ read_outcome count (ruled im (spot_of spot)) }
{
    match spot {
        None => Ok(count),
        Some(place) => Err(Refusal {
            cause: Cause::ImageRule,
            place,
        }),
    }
}

// The facts of an image in order, which has `count` fields, with so many marks as a prototype of it may have instructions.
fn judge<const N: usize>(
    image: &[u8],
    tag: u8,
    texts: &[u8],
    count: usize,
    mend: bool,
) -> Result<usize, Refusal>
    requires few { N ≤ 65536 }
    requires ordered { Ordered image.now tag × ((n : ℕ) → n < 65536 → 9 * n ≤ length image.now → n ≤ N) }
    requires table { Table (λ k. flag (is_text k)) texts.now (parts tag (fields image.now)).constants × (length texts.now ≡ length (parts tag (fields image.now)).constants) }
    ensures { result ≡ read_outcome count (ruled (lens_image mend (image_of tag (fields image.now))) (broken (lens_image mend (image_of tag (fields image.now))))) }
{
    let mut marks = [0u8; N];
    ruled(
        rules::first_broken(image, tag, texts, &mut marks, mend),
        count,
    )
}

// The tables stand on the stack, small ones for a short image, so that few bytes are made.
// stays: arrays with their lengths beside, since the library has no heap.
fn read_facts(image: &[u8], tag: u8, count: usize, mend: bool) -> Result<usize, Refusal>
    requires { Ordered image.now tag }
    ensures { result ≡ read_outcome count (ruled (lens_image mend (image_of tag (fields image.now))) (broken (lens_image mend (image_of tag (fields image.now))))) }
{
    let mut texts = [0u8; 1024];
    let constants = texts::texts_of(image, tag, &mut texts);
    let texts = &texts[..constants];
    if image.len() <= 36864 {
        return judge::<4096>(image, tag, texts, count, mend);
    }
    judge::<65536>(image, tag, texts, count, mend)
}

// 19 Image frame, then 20 Image rule: the first field that cannot follow, or the field count; else the lowest whose fact fails, as the image stands or as it is mended.
// stays: `mend` is a value that two tests and the lens of the clauses ask; as closures both tests would go through the same calls.
fn read_as(image: &[u8], tag: u8, mend: bool) -> Result<usize, Refusal>
    requires { (tag ≡ 0x43) ⊎ (tag ≡ 0x47) }
    ensures { result ≡ read_outcome (length (fields image.now)) (read_by mend tag image.now) }
{
    let walked = order::order(image, tag);
    let framed = walked.framed;
    if (framed.count == 0) | (framed.after != 0) {
        return Err(Refusal {
            cause: Cause::ImageFrame,
            place: framed.count,
        });
    }
    match walked.spot {
        None => read_facts(image, tag, framed.count, mend),
        Some(place) => Err(Refusal {
            cause: Cause::ImageRule,
            place,
        }),
    }
}

// An image of either width is taken, with the number of its fields, or refused.
pub fn read(image: &[u8]) -> Result<usize, Refusal>
    ensures { result ≡ read_outcome (length (fields image.now)) (read_image image.now) }
{
    read_as(image, image_tag(image), false)
}

// The same of its mended copy (E9), where the fields of the image are in order.
pub fn read_mended(image: &[u8]) -> Result<usize, Refusal>
    ensures { result ≡ read_outcome (length (fields image.now)) (read_mended (image_tag image.now) image.now) }
{
    read_as(image, image_tag(image), true)
}

// Instruction i of the prototype whose header stands at the front.
pub fn instruction(part: &[u8], tag: u8, i: usize) -> Instruction
    requires { (proto_span part.now tag ≤ length part.now) × (i < word_at part.now 11) }
    ensures { result ≡ inst_at (proto_in part.now tag).code i }
{
    let size = 3 + order::inst_size(tag);
    let at = 13 + fields::word(part, 9) * 5 + i * size;
    locate::inst_at(part, tag, at + 3)
}
