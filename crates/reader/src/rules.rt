// The lowest field whose fact fails (document 02, E1), as the image stands or as it is mended (E9).
ghost use Rattle.std.specs.Prelude.{◌≡◌, ℕ, List, ◌+◌, ◌*◌, ◌<◌, ◌≤◌, length};
ghost use Rattle.meaning.specs.Base.{lowest};
ghost use Rattle.meaning.specs.Constant.{Constant};
ghost use Rattle.meaning.specs.Fields.{fields, word_at};
ghost use Rattle.meaning.specs.Steps.{inst_at};
ghost use Rattle.meaning.specs.State.{Proto};
ghost use Rattle.meaning.specs.Images.{parts, image_of};
ghost use Rattle.reader.specs.Spots.{spot_of, below};
ghost use Rattle.meaning.specs.Image.{flag};
ghost use Rattle.meaning.specs.Rules.{is_text, lawful};
ghost use Rattle.meaning.specs.Reader.{broken};
ghost use Rattle.reader.specs.Around.{local_needs, outer_needs};
ghost use Rattle.reader.specs.Right.{Table, Right};
ghost use Rattle.reader.specs.Laid.{proto_in, proto_span, Ordered};
ghost use Rattle.reader.specs.Lens.{lens_proto, lens_image};

use crate::facts::{Around, Needs, first_unlawful, needs_of};
use crate::locate::{heads, proto_span};
use crate::marks::mark_entered;
use fields::word;

// The lowest instruction of the prototype at the front whose facts fail, by whatever the tables are right for.
fn first_in(t: &[u8], tag: u8, v: &Around, marks: &mut [u8], mend: bool) -> Option<usize>
    requires { (proto_span t.now tag ≤ length t.now) × (word_at t.now 11 ≤ length marks.old) × (v.now.registers ≡ word_at t.now 7) × (v.now.captures ≡ word_at t.now 9) }
    ensures { (ks : List Constant) (ps : List Proto) → Right ks ps (local_needs v.now.needs.now) (outer_needs v.now.needs.now) v.now.texts.now → length v.now.needs.now ≡ length ps → length v.now.texts.now ≡ length ks → spot_of result ≡ below (word_at t.now 11) (lowest (λ (i : ℕ). lawful ks ps (lens_proto mend (proto_in t.now tag)) i (inst_at (lens_proto mend (proto_in t.now tag)).code i)) (word_at t.now 11)) }
{
    let at = 13 + v.captures * 5;
    let marks = &mut marks[..word(t, 11)];
    if v.registers == 0 {
        mark_entered(t, tag, at, marks, mend);
    }
    first_unlawful(t, tag, at, v, marks, mend)
}

// The lowest field whose fact fails, in an image in order. There is a mark for each instruction that a prototype may have: one takes nine bytes at least. The table of what captures need is filled as the prototypes are met.
pub(crate) fn first_broken(
    image: &[u8],
    tag: u8,
    texts: &[u8],
    marks: &mut [u8],
    mend: bool,
) -> Option<usize>
    requires ordered { Ordered image.now tag × ((n : ℕ) → n < 65536 → 9 * n ≤ length image.now → n ≤ length marks.old) }
    requires table { Table (λ k. flag (is_text k)) texts.now (parts tag (fields image.now)).constants × (length texts.now ≡ length (parts tag (fields image.now)).constants) }
    ensures { spot_of result ≡ broken (lens_image mend (image_of tag (fields image.now))) }
{
    let mut needs = [Needs {
        locals: 0,
        outers: 0,
    }; 256];
    let mut t = image;
    let mut k: usize = 0;
    let mut f: usize = 0;
    // stays: the place, the two counts and the table of needs move together, and a turn reads and fills the table: an iterator would hand on the place alone.
    while heads(t) {
        let registers = word(t, 7);
        let captures = word(t, 9);
        let n = word(t, 11);
        let v = Around {
            registers,
            captures,
            needs: &needs[..k],
            texts,
        };
        if let Some(i) = first_in(t, tag, &v, marks, mend) {
            return Some(f + 1 + captures + i);
        }
        needs[k] = needs_of(t, 13, captures);
        k = k + 1;
        f = f + 1 + captures + n;
        t = &t[proto_span(t, tag)..];
    }
    None
}
