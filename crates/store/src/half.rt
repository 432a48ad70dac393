// Words as two halves of 16 bits.
ghost use Rattle.std.specs.Prelude.{◌≡◌, ◌/◌, ◌<◌, length};
ghost use Rattle.store.specs.Half.{half, with_half};

pub(crate) fn half_at(work: &[u32], k: usize) -> u32
    requires { k / 2 < length work.now }
    ensures { result ≡ half work.now k }
{
    let x = work[k / 2];
    if k % 2 == 0 {
        x % 65536
    } else {
        x / 65536 % 65536
    }
}

pub(crate) fn set_half(work: &mut [u32], k: usize, v: u32)
    requires { (k / 2 < length work.old) × (v < 65536) }
    ensures { work.new ≡ with_half work.old k v }
{
    let at = k / 2;
    let x = work[at];
    if k % 2 == 0 {
        work[at] = x / 65536 * 65536 + v;
    } else {
        work[at] = v * 65536 + x % 65536;
    }
}
