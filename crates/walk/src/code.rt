// The instructions of a prototype, as they lie in its part of an image.
ghost use Rattle.std.specs.Prelude.{◌≡◌, ◌+◌, ◌*◌, ◌<◌, get_or};
ghost use Rattle.meaning.specs.Fields.{word_at};
ghost use Rattle.walk.specs.Code.{Walkable};

use fields::word;

// They lie from `at` on, each in `span` bytes, and a walk may be made over them. The contracts alone read the tag.
#[derive(Clone, Copy)]
pub(crate) struct Code<'a> {
    pub part: &'a [u8],
    pub tag: u8,
    pub span: usize,
    pub at: usize,
    pub count: usize,
    ghost walkable: { Walkable part.now tag span at count },
}

impl Code<'_> {
    pub(crate) fn opcode(&self, i: usize) -> u8
        requires { i < self.now.count }
        ensures { result ≡ get_or self.now.part.now (self.now.at + i * self.now.span + 3) 0 }
    {
        self.part[self.at + i * self.span + 3]
    }

    // b and c as one number.
    pub(crate) fn operand(&self, i: usize) -> usize
        requires { i < self.now.count }
        ensures { (result ≡ word_at self.now.part.now (self.now.at + i * self.now.span + 5)) × (result < 65536) }
    {
        word(self.part, self.at + i * self.span + 5)
    }
}
