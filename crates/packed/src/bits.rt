// Fields of 1 to 32 bits at any bit offset, most significant bit first.

ghost use Rattle.std.specs.Prelude.{◌≡◌, ◌+◌, ◌*◌, ◌^◌, ◌-◌, ◌/◌, ◌%◌, ◌<◌, ◌≤◌, min, length, take, drop};
ghost use Rattle.std.proofs.lemmas.List.Edits.{sets};
ghost use Rattle.packed.specs.Bits.{bits_of, bits, field, zeros, gap};

fn wide(x: u8) -> u64
    ensures { result ≡ x }
{
    x as u64
}

// The number that the k bytes from the byte q on spell.
fn get_bytes(s: &[u8], q: usize, k: usize) -> u64
    requires { (k ≤ 5) × (q + k ≤ length s.now) }
    ensures { result ≡ field s.now (8 * q) (8 * k) }
{
    let mut v: u64 = 0;
    for i in 0..k {
        v = v * 256 + wide(s[q + i]);
    }
    v
}

// The field of n bits at the bit offset at: the bytes that it touches as one number, without what stands after and before it.
pub fn get_bits(s: &[u8], at: usize, n: u32) -> u32
    requires { (n ≤ 32) × (at + n ≤ 8 * length s.now) × (length s.now < 2 ^ 60) }
    ensures { result ≡ field s.now at n }
{
    let end = (at % 8) as u32 + n;
    let k = (end + 7) / 8;
    let v = get_bytes(s, at / 8, k as usize);
    ((v >> (8 * k - end)) % (1u64 << n)) as u32
}

// Whether the bits from the bit offset at up to the next whole byte are zero.
pub fn is_clear(s: &[u8], at: usize) -> bool
    requires { (at ≤ 8 * length s.now) × (length s.now < 2 ^ 60) }
    ensures { result ≡ zeros (take (gap at) (drop at (bits s.now))) }
{
    let n = (8 - at % 8) % 8;
    get_bits(s, at, n as u32) == 0
}

// How many of n bits the byte at the bit offset p has room for.
fn room(p: usize, n: u32) -> u32
    ensures { result ≡ min n (8 - p % 8) }
{
    let r = 8 - (p % 8) as u32;
    if n < r { n } else { r }
}

// The byte x, with c in the place of its k bits above the m low ones.
fn patch_byte(x: u8, k: u32, m: u32, c: u32) -> u8
    requires { (k + m ≤ 8) × (c < 2 ^ k) }
    ensures { bits_of 8 result ≡ sets (bits_of 8 x) (8 - (k + m)) (bits_of k c) }
{
    let w = x as u32;
    let high = (w >> (k + m)) << (k + m);
    let low = w % (1 << m);
    (high + ((c << m) + low)) as u8
}

// The k bits at the bit offset p, which lie in one byte, are set to c, if the slice has that byte.
fn put_chunk(out: &mut [u8], p: usize, k: u32, c: u32)
    requires { (p % 8 + k ≤ 8) × (c < 2 ^ k) }
    ensures { bits out.new ≡ sets (bits out.old) p (bits_of k c) }
{
    let q = p / 8;
    if q < out.len() {
        let m = 8 - (p % 8) as u32 - k;
        out[q] = patch_byte(out[q], k, m, c);
    }
}

// The byte q is set to c, if the slice has it.
fn put_byte(out: &mut [u8], q: usize, c: u32)
    requires { c < 256 }
    ensures { bits out.new ≡ sets (bits out.old) (8 * q) (bits_of 8 c) }
{
    if q < out.len() {
        out[q] = c as u8;
    }
}

// The low n bits of v are set from the byte q on: whole bytes, and what is left over.
fn put_low(out: &mut [u8], q: usize, n: u32, v: u32)
    requires { (n ≤ 32) × (q < 2 ^ 58) }
    ensures { bits out.new ≡ sets (bits out.old) (8 * q) (bits_of n v) }
{
    let mut left = n;
    let mut p = q;
    // What is left after the whole bytes is used behind the loop, so a `for` over the bytes would reckon it twice.
    while 8 <= left {
        left -= 8;
        put_byte(out, p, (v >> left) % 256);
        p += 1;
    }
    put_chunk(out, 8 * p, left, v % (1 << left));
}

// The n bits at the bit offset at are set to v: those of the byte that they begin in, then the others. What lies beyond the end of the
// slice is dropped.
pub fn put_bits(out: &mut [u8], at: usize, n: u32, v: u32)
    requires { (n ≤ 32) × (at + n < 2 ^ 60) × (v < 2 ^ n) }
    ensures { bits out.new ≡ sets (bits out.old) at (bits_of n v) }
{
    let k = room(at, n);
    let left = n - k;
    put_chunk(out, at, k, v >> left);
    put_low(out, (at + k as usize) / 8, left, v);
}

// The byte x, with those of c in the place of its bits above the m low ones.
fn patch_high(x: u8, m: u32, c: u32) -> u8
    requires { (m ≤ 8) × (c < 256) × (c % 2 ^ m ≡ 0) }
    ensures { bits_of 8 result ≡ sets (bits_of 8 x) 0 (bits_of (8 - m) (c / 2 ^ m)) }
{
    (c + x as u32 % (1 << m)) as u8
}

// The 24 bits at the bit offset at are set to v, where the slice has the byte that they begin in and three more. Moved to where it stands there, v is x;
// the four become the bytes of x, but the first keeps its high bits and the last its low ones.
fn put_inside(out: &mut [u8], at: usize, v: u32)
    requires { (at / 8 + 4 ≤ length out.old) × (v < 2 ^ 24) }
    ensures { bits out.new ≡ sets (bits out.old) at (bits_of 24 v) }
{
    let m = 8 - (at % 8) as u32;
    let x = v << m;
    let a = at / 8;
    let b = a + 1;
    let c = a + 2;
    let d = a + 3;
    out[a] = patch_byte(out[a], m, 0, x >> 24);
    out[b] = ((x >> 16) % 256) as u8;
    out[c] = ((x >> 8) % 256) as u8;
    out[d] = patch_high(out[d], m, x % 256);
}

// Three bytes at the bit offset at: put_bits of 24 bits, but at once where none lies beyond the end of the slice.
pub fn put_three(out: &mut [u8], at: usize, v: u32)
    requires { (at + 24 < 2 ^ 60) × (v < 2 ^ 24) }
    ensures { bits out.new ≡ sets (bits out.old) at (bits_of 24 v) }
{
    if at / 8 + 4 <= out.len() {
        put_inside(out, at, v);
    } else {
        put_bits(out, at, 24, v);
    }
}
