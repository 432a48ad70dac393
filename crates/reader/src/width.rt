// The width of an image's marks (document 02, E5), told by the tag of its instructions.
ghost use Rattle.std.specs.Prelude.{◌≡◌, ◌⊎◌};
ghost use Rattle.meaning.specs.Reader.{image_tag};

use fields::Fields;

// stays: a byte is answered, since docs/PROMISES names the call, and `prototype` and `instruction` take any.
// The first field with one of the two tags decides. In an image it stands behind the first header and its captures, so few fields are passed.
pub fn image_tag(image: &[u8]) -> u8
    ensures { (result ≡ image_tag image.now) × ((result ≡ 0x43) ⊎ (result ≡ 0x47)) }
{
    for field in Fields::new(image) {
        if field.tag == 0x47 {
            return 0x47;
        }
        if field.tag == 0x43 {
            return 0x43;
        }
    }
    0x43
}
