// Images mended (document 02, E9): judged first, as they will be; then copied, their stray jumps replaced and listed.
#![tactic(auto)]

mod put;
mod walk;

ghost use Rattle.std.specs.Prelude.{◌≡◌, ◌++◌, ◌⊎◌, ◌≤◌, length, drop, replicate};
ghost use Rattle.meaning.specs.Reader.{image_tag};
ghost use Rattle.meaning.specs.Mend.{mend_as, mend_answer, mend_output, mend_list};
ghost use Rattle.mend.specs.Course.{mend_outcome};

use meaning::{Cause, MendAnswer, Refusal};

// Every byte is zero.
fn clear(bytes: &mut [u8])
    ensures { bytes.new ≡ replicate (length bytes.old) 0 }
{
    bytes.fill(0);
}

// The image at the front of the output.
// stays: by an index, since `copy_from_slice` calls memmove, which a caller in C would have to bring.
fn copy(image: &[u8], out: &mut [u8])
    requires { length image.now ≤ length out.old }
    ensures { out.new ≡ image.now ++ drop (length image.now) out.old }
{
    for i in 0..image.len() {
        out[i] = image[i];
    }
}

// 19 and 20 of the image as it will be, then 26 List room, then 18 Room; else how many jumps are replaced.
fn judge(image: &[u8], tag: u8, room: usize, list: usize) -> Result<usize, Refusal>
    requires { (tag ≡ image_tag image.now) × ((tag ≡ 0x43) ⊎ (tag ≡ 0x47)) }
    ensures { result ≡ mend_outcome (mend_as tag image.now room list) }
{
    reader::read_mended(image)?;
    let entries = walk::count(image, tag);
    if list / 8 < entries {
        return Err(Refusal {
            cause: Cause::ListRoom,
            place: 0,
        });
    }
    if room < image.len() {
        return Err(Refusal {
            cause: Cause::Room,
            place: 0,
        });
    }
    Ok(entries)
}

// What document 02 says of an image of either width, an output and a list, whatever they hold.
pub fn mend(image: &[u8], out: &mut [u8], list: &mut [u8]) -> MendAnswer
    ensures answered { result ≡ mend_answer (mend_as (image_tag image.now) image.now (length out.old) (length list.old)) }
    ensures written { out.new ≡ mend_output (length out.old) (mend_as (image_tag image.now) image.now (length out.old) (length list.old)) }
    ensures listed { list.new ≡ mend_list (length list.old) (mend_as (image_tag image.now) image.now (length out.old) (length list.old)) }
{
    clear(out);
    clear(list);
    let tag = reader::image_tag(image);
    let judged = judge(image, tag, out.len(), list.len());
    match judged {
        Ok(entries) => {
            copy(image, out);
            put::put_all(image, tag, out, list);
            MendAnswer {
                number: 0,
                place: 0,
                length: image.len() as u64,
                entries: entries as u64,
            }
        }
        Err(Refusal { cause, place }) => MendAnswer {
            number: values::cause_number(cause),
            place: place as u64,
            length: 0,
            entries: 0,
        },
    }
}
