// Fields: a one-byte tag, a two-byte length and the payload. What is handed on is a part of the caller's slice, never a copy.
#![tactic(auto)]

ghost use Rattle.std.specs.Prelude.{◌≡◌, ◌+◌, ◌<◌, ◌≤◌, length};
ghost use Rattle.std.specs.Iterator.{at_most};
ghost use Rattle.meaning.specs.Fields.{word_at, span, whole, payload_of};
ghost use Rattle.fields.specs.Walk.{StepsOver};

// stays: `usize::from` by a name: a public function, which docs/PROMISES names with this promise.
pub fn as_size(x: u8) -> usize
    ensures { (result ≡ x) × (result < 256) }
{
    usize::from(x)
}

// The two bytes at a place, the high one first.
pub fn word(s: &[u8], at: usize) -> usize
    requires { at + 2 ≤ length s.now }
    ensures { (result ≡ word_at s.now at) × (result < 65536) }
{
    usize::from(u16::from_be_bytes([s[at], s[at + 1]]))
}

// A whole field stands at the front.
#[tactic(auto, using(meaning::proofs::FieldLaws::whole_false), unfolding(meaning::specs::Fields::whole))]
pub fn is_whole(t: &[u8]) -> bool
    ensures { result ≡ whole t.now }
{
    t.len() >= 3 && span_of(t) <= t.len()
}

// How many bytes the field at the front takes.
pub fn span_of(t: &[u8]) -> usize
    requires { 3 ≤ length t.now }
    ensures { result ≡ span t.now }
{
    3 + word(t, 1)
}

// The payload of the whole field at the front, a part of the caller's slice.
pub fn payload<'a>(t: &'a [u8]) -> &'a [u8]
    requires { span t.now ≤ length t.now }
    ensures { result.now ≡ payload_of t.now }
{
    &t[3..span_of(t)]
}

// A field of a file: its tag, and its payload as a part of the caller's slice.
#[derive(Clone, Copy)]
pub struct Field<'a> {
    pub tag: u8,
    pub payload: &'a [u8],
}

// A walk over the whole fields from the front on: `for field in Fields::new(file)`.
#[derive(Drop)]
pub struct Fields<'a> {
    rest: &'a [u8],
}

impl<'a> Fields<'a> {
    pub fn new(file: &'a [u8]) -> Fields<'a>
        ensures { result.rest.now ≡ file.now }
    {
        Fields { rest: file }
    }
}

impl<'a> Iterator for Fields<'a> {
    type Item = Field<'a>;

    ghost next_gives = { StepsOver };

    ghost remaining = { λ s. at_most (length s.rest.now) };

    fn next(&mut self) -> Option<Field<'a>> {
        if !is_whole(self.rest) {
            return None;
        }
        let span = span_of(self.rest);
        let field = Field {
            tag: self.rest[0],
            payload: &self.rest[3..span],
        };
        self.rest = &self.rest[span..];
        Some(field)
    }
}
