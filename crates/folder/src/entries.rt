// An index as a file: each entry has 16 bits, most significant byte first.
ghost use Rattle.std.specs.Prelude.{◌≡◌, ◌+◌, ◌*◌, length};
ghost use Rattle.folder.specs.Entries.{entry_bytes, entries_of, byte_of};

use packed::reply::{Refusal, Reply};

fn joined(high: u8, low: u8) -> u16
    ensures { result ≡ 256 * high + low }
{
    256 * high as u16 + low as u16
}

// The first or the second byte of an entry.
#[tactic(auto, unfolding(crate::specs::Entries::byte_of))]
fn byte_of(x: u16, second: usize) -> u8
    ensures { result ≡ byte_of x second }
{
    if second == 0 {
        return (x / 256) as u8;
    }
    (x % 256) as u8
}

// The entries of bytes, two for each.
pub fn unpack(bytes: &[u8], entries: &mut [u16])
    requires { (length bytes.now ≡ 8196) × (length entries.old ≡ 4098) }
    ensures { entries.new ≡ entries_of bytes.now }
{
    for i in 0..4098 {
        let high = 2 * i;
        let low = high + 1;
        entries[i] = joined(bytes[high], bytes[low]);
    }
}

// The bytes of entries in a file.
pub fn pack(entries: &[u16], bytes: &mut [u8])
    requires { (length entries.now ≡ 4098) × (length bytes.old ≡ 8196) }
    ensures { bytes.new ≡ entry_bytes entries.now }
{
    for at in 0..8196 {
        let i = at / 2;
        let x = entries[i];
        bytes[at] = byte_of(x, at % 2);
    }
}

// Of too many entries no more are lent than show it: a refusal tells how many the file has.
pub fn counted(reply: Reply, count: usize) -> Reply {
    if count <= 4098 {
        return reply;
    }
    reply.map_err(|x| with_count(x, count))
}

fn with_count(x: Refusal, count: usize) -> Refusal {
    match x {
        Refusal::WrongIndex(_) => Refusal::WrongIndex(count),
        _ => x,
    }
}
