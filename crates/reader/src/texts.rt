// Which constants of an image are texts: a byte for each.
ghost use Rattle.std.specs.Prelude.{◌≡◌, cond, ◌+◌, ◌≤◌, length, eqb};
ghost use Rattle.meaning.specs.Fields.{fields};
ghost use Rattle.meaning.specs.Image.{flag};
ghost use Rattle.meaning.specs.Images.{parts};
ghost use Rattle.meaning.specs.Rules.{is_text};
ghost use Rattle.reader.specs.Right.{Table};
ghost use Rattle.reader.specs.Laid.{Ordered};

use crate::locate::prototype;
use fields::Fields;

// stays: the tag is a byte, as order.rt says.
// 1 for the tag of a text.
fn text_flag(tag: u8) -> u8
    ensures { result ≡ cond (eqb tag 0x45) 1 0 }
{
    if tag == 0x45 {
        return 1;
    }
    0
}

// stays: bytes, as those of src/marks.rt, since specs/Right and specs/Marks are of numbers: of bools each clause would turn a list into one.
// A byte for each constant of an image in order, 1 where it is a text; how many constants there are.
pub(crate) fn texts_of(image: &[u8], tag: u8, texts: &mut [u8]) -> usize
    requires { Ordered image.now tag × (length texts.old ≡ 1024) }
    ensures { Table (λ k. flag (is_text k)) texts.new (parts tag (fields image.now)).constants × (result ≡ length (parts tag (fields image.now)).constants) × (length (parts tag (fields image.now)).constants ≤ 1024) }
{
    let mut count: usize = 0;
    for field in Fields::new(prototype(image, tag, 256)) {
        texts[count] = text_flag(field.tag);
        count += 1;
    }
    count
}
