// The walk over the fields of an image in order: which of them are instructions that are replaced.
ghost use Rattle.std.specs.Prelude.{◌≡◌, ◌<◌, length};
ghost use Rattle.meaning.specs.Mend.{listed_in};
ghost use Rattle.reader.specs.Laid.{Ordered};
ghost use Rattle.mend.specs.Course.{met_field, hit, after};

use fields::{Field, Fields, word};
use reader::is_replaced;

// The tag of a header, and how many bytes of it are read.
const HEADER: u8 = 0x41;

const HEADER_BYTES: usize = 10;

// Where the walk stands: how many headers it has met, how many instructions the last one names, how many of these it has passed.
#[derive(Clone, Copy, Default)]
pub struct Course {
    pub met: usize,
    pub code: usize,
    pub index: usize,
}

impl Course {
    // The field is an instruction that is replaced.
    pub(crate) fn is_hit(self, field: Field, tag: u8) -> bool
        requires { self.code < 65536 }
        ensures { result ≡ hit tag self (met_field field.entry) }
    {
        let payload = field.payload;
        let is_in_hand = ((field.tag == tag) & (4 <= payload.len()))
            & ((0 < self.met) & (self.index < self.code));
        is_in_hand
            && is_replaced(
                payload[0],
                usize::from(payload[1]),
                word(payload, 2),
                self.index,
                self.code,
            )
    }

    // Where the walk stands behind the field.
    pub(crate) fn after(self, field: Field, tag: u8) -> Course
        requires { (self.met < 18446744073709551615) × (self.index < 18446744073709551615) }
        ensures { result ≡ after tag self (met_field field.entry) }
    {
        if (field.tag == HEADER) & (HEADER_BYTES <= field.payload.len()) {
            return Course {
                met: self.met + 1,
                code: word(field.payload, 8),
                index: 0,
            };
        }
        if field.tag == tag {
            return Course {
                index: self.index + 1,
                ..self
            };
        }
        self
    }
}

// How many instructions of an image in order are replaced.
pub(crate) fn count(image: &[u8], tag: u8) -> usize
    requires { Ordered image.now tag }
    ensures { result ≡ length (listed_in tag image.now) }
{
    let mut course = Course::default();
    let mut entries = 0;
    for field in Fields::new(image) {
        entries += usize::from(course.is_hit(field, tag));
        course = course.after(field, tag);
    }
    entries
}
