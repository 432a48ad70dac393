// The calls that C and Rust link (yengrazul_c exports them). Each asks the crate that does the work and writes the numbers of its answer.
// stays: parameters one by one, and numbers in an array for the answer, are the interface of C.
#![tactic(auto)]

ghost use Rattle.std.specs.Prelude.{◌≡◌, length, take};
ghost use Rattle.meaning.specs.Fields.{fields};
ghost use Rattle.meaning.specs.Check.{checked};
ghost use Rattle.meaning.specs.Reader.{image_tag, read_image, read_outcome};
ghost use Rattle.meaning.specs.Answer.{finished, answer as answer_to, reply, output, work_area};
ghost use Rattle.meaning.specs.Walker.{walk_image, walk_answer, lent_bytes};
ghost use Rattle.meaning.specs.Mend.{mend_as, mend_answer, mend_output, mend_list};
ghost use Rattle.yengrazul.specs.Told.{told, told_reply, walk_told, mend_told};

// `lower`: number, place, length and visits.
pub fn yengrazul_lower(
    tree: &[u8],
    work: &mut [u32],
    out: &mut [u8],
    mode: u64,
    answer: &mut [u64; 4],
)
    ensures answered { answer.new ≡ told_reply (reply tree.now (finished mode tree.now (length work.old) (length out.old))) }
    ensures cleared { work.new ≡ work_area (length work.old) }
    ensures written { out.new ≡ output (length out.old) (finished mode tree.now (length work.old) (length out.old)) }
{
    let lowered = lower::lower(tree, work, out, mode);
    *answer = [
        lowered.number,
        lowered.place,
        lowered.length,
        lowered.visits,
    ];
}

// `tree::check`: number, place, and as length the number of nodes.
pub fn yengrazul_check(tree: &[u8], work_len: usize, mode: u64, answer: &mut [u64; 3])
    ensures { answer.new ≡ told (answer_to (checked mode tree.now work_len)) }
{
    let checked = values::answer_of(tree::check(tree, work_len, mode));
    *answer = [checked.number, checked.place, checked.length];
}

// `reader::read`: number and place.
pub fn yengrazul_read(image: &[u8], answer: &mut [u64; 2])
    ensures { answer.new ≡ take 2 (told (answer_to (read_outcome (length (fields image.now)) (read_image image.now)))) }
{
    let read = values::answer_of(reader::read(image));
    *answer = [read.number, read.place];
}

// `walk`: number, place, steps, index and ending.
pub fn yengrazul_walk(
    image: &[u8],
    prototype: u64,
    decisions: &[u8],
    strikes: &[u64],
    budget: u64,
    visited: &mut [u8],
    answer: &mut [u64; 5],
)
    ensures answered { answer.new ≡ walk_told (walk_answer (walk_image (image_tag image.now) image.now «prototype» decisions.now strikes.now «budget» (length visited.old))) }
    ensures visited { visited.new ≡ lent_bytes (walk_image (image_tag image.now) image.now «prototype» decisions.now strikes.now «budget» (length visited.old)) (length visited.old) }
{
    let walked = walk::walk(image, prototype, decisions, strikes, budget, visited);
    *answer = [
        walked.number,
        walked.place,
        walked.steps,
        walked.index,
        walked.ending,
    ];
}

// `mend::mend`: number, place, length of the image, entries in the list.
pub fn yengrazul_mend(image: &[u8], out: &mut [u8], list: &mut [u8], answer: &mut [u64; 4])
    ensures answered { answer.new ≡ mend_told (mend_answer (mend_as (image_tag image.now) image.now (length out.old) (length list.old))) }
    ensures written { out.new ≡ mend_output (length out.old) (mend_as (image_tag image.now) image.now (length out.old) (length list.old)) }
    ensures listed { list.new ≡ mend_list (length list.old) (mend_as (image_tag image.now) image.now (length out.old) (length list.old)) }
{
    let mended = mend::mend(image, out, list);
    *answer = [mended.number, mended.place, mended.length, mended.entries];
}
