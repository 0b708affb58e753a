// The workspace, and outputs that are made there.

ghost use Rattle.std.specs.Prelude.{◌≡◌, ◌++◌, ◌≤◌, length, drop, replicate, set};

// The first n words are zero, the others unchanged.
pub fn clear(work: &mut [u32], n: usize)
    requires { n ≤ length work.old }
    ensures { work.new ≡ replicate n 0 ++ drop n work.old }
{
    work[0..n].fill(0);
}

// The words stand at the front of out, whose others are unchanged.
pub(crate) fn copy_words(words: &[u32], out: &mut [u32])
    requires { length words.now ≤ length out.old }
    ensures { out.new ≡ words.now ++ drop (length words.now) out.old }
{
    out[0..words.len()].copy_from_slice(words);
}

// The word i is v, where there is a word i.
pub(crate) fn store(words: &mut [u32], i: usize, v: u32)
    ensures { words.new ≡ set words.old i v }
{
    if i < words.len() {
        words[i] = v;
    }
}
