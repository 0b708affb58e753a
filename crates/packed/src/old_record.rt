// Records as they were stored before their edges stood in order and had kinds. The ranks of the edges are loaded into the workspace on the way, where
// they are sorted: to find a repeat, and to write the record anew.
ghost use Rattle.std.specs.Prelude.{◌≡◌, [], ◌+◌, ◌*◌, ◌≤◌, length};
ghost use Rattle.packed.specs.Bits.{field};
ghost use Rattle.packed.specs.Format.{times, decode};
ghost use Rattle.packed.specs.Formats.{labels, edges};
ghost use Rattle.packed.specs.OldRecord.{nothing, old_record};
ghost use Rattle.packed.specs.Reading.{Stands, ReadsPart, Judges};
ghost use Rattle.packed.specs.OldLoading.{Loads, RanksLoaded, EndsAt, Orders};
ghost use Rattle.packed.specs.declared.reply.File.TheVariants.{Record};
ghost use Rattle.packed.specs.Accepting.{reply_of};

use crate::reply::{File, Loaded, Refusal, Wrong};
use crate::{field, limits, sort, workspace};

// The labels of so many nodes.
fn read_labels(
    s: &[u8],
    start: usize,
    n: u32,
    words: &mut [u32],
    first: usize,
) -> Result<(usize, usize), Refusal>
    requires { Stands s.now start first }
    ensures { ReadsPart (times n labels) s.now start words.old first 3 result words.new × EndsAt (start + 32 * n) result }
{
    let mut at = start;
    let mut i = first;
    for _ in 0..n {
        field::read_field(
            s,
            at,
            limits::LABELS_WIDTH,
            0,
            limits::LABELS_BOUND,
            Wrong::Range,
            File::Record,
            words,
            i,
        )?;
        at += limits::LABELS_BITS;
        i += 1;
    }
    Ok((at, i))
}

// So many edges between so many nodes, of kind 0, whose ranks go to the front of the workspace; repeats are not looked for.
fn read_edges(
    s: &[u8],
    start: usize,
    nodes: u32,
    number: u32,
    words: &mut [u32],
    first: usize,
    work: &mut [u32],
) -> Loaded
    requires { Stands s.now start first × (nodes ≤ 4096) × (number ≤ 8192) × (8192 ≤ length work.old) }
    ensures { Loads (edges 12 0 nodes nothing number []) s.now start words.old first Record work.old result words.new work.new
        × RanksLoaded s.now start number work.old result.part result.edges work.new }
{
    let mut at = start;
    let mut i = first;
    for k in 0..number as usize {
        let f = field::read_two(
            s,
            at,
            limits::NODE_WIDTH,
            nodes as u64,
            Wrong::Node,
            File::Record,
            words,
            i,
        );
        match f {
            Ok((a, b)) => {
                work[k] = (a * limits::NODES + b) * limits::KINDS;
                workspace::store(words, i + 2, 0);
                at += limits::OLD_EDGE_BITS;
                i += 3;
            }
            Err(x) => {
                return Loaded {
                    part: Err(x),
                    edges: k,
                };
            }
        }
    }
    Loaded {
        part: Ok((at, i)),
        edges: number as usize,
    }
}

// A refusal before the edges.
fn stopped(x: Refusal) -> Loaded
    ensures { (result.part ≡ Err x) × (result.edges ≡ 0) }
{
    Loaded {
        part: Err(x),
        edges: 0,
    }
}

// The fields of a record, repeats aside.
fn read_fields(s: &[u8], words: &mut [u32], work: &mut [u32]) -> Loaded
    requires { (length s.now ≤ 65536) × (8192 ≤ length work.old) }
    ensures { Loads old_record s.now 0 words.old 0 Record work.old result words.new work.new
        × RanksLoaded s.now (27 + 32 * field s.now 0 13) (field s.now 13 14) work.old result.part result.edges work.new }
{
    let f = field::read_field(
        s,
        0,
        limits::NODES_WIDTH,
        0,
        limits::NODES_BOUND,
        Wrong::Range,
        File::Record,
        words,
        0,
    );
    let nodes = match f {
        Ok(v) => v,
        Err(x) => {
            return stopped(x);
        }
    };
    let g = field::read_field(
        s,
        limits::NODES_BITS,
        limits::EDGES_WIDTH,
        0,
        limits::EDGES_BOUND,
        Wrong::Range,
        File::Record,
        words,
        1,
    );
    let number = match g {
        Ok(v) => v,
        Err(x) => {
            return stopped(x);
        }
    };
    let p = read_labels(s, limits::LABELS, nodes, words, 2);
    match p {
        Ok((at, i)) => read_edges(s, at, nodes, number, words, i, work),
        Err(x) => stopped(x),
    }
}

// A whole record: its content goes to the front of the words as far as they go. On acceptance the ranks of its edges stand at the
// front of the workspace, ascending.
pub(crate) fn judge_old_record(
    s: &[u8],
    words: &mut [u32],
    work: &mut [u32],
) -> Result<(usize, usize), Refusal>
    requires { (length s.now ≤ 65536) × (length work.old ≡ 16384) }
    ensures { Judges (decode old_record s.now) 3 result words.old words.new
        × Orders (decode old_record s.now) (reply_of result) work.old work.new }
{
    let l = read_fields(s, words, work);
    let k = l.edges;
    let p = l.part;
    if sort::repeats(work, k) {
        return Err(Refusal::DuplicateEdge(File::Record));
    }
    let (at, i) = p?;
    field::close_file(s, at, i, File::Record)
}
