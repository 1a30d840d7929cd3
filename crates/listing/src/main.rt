// The listing program: lines `in S P T L D` from standard input, each answered on a line; then what the store holds, in key order.
// Here are the reads and the calls that print, of which no contract can say what they read or print. What is printed is written by
// `answer_part` and `answer_end`, on slices.
#![tactic(auto)]

ghost use Rattle.std.specs.Prelude.{◌≡◌, cond, ◌*◌, ◌-◌, ◌≤◌, ◌<◌, ltb, length, take, IfOk, OnErr};
ghost use Rattle.data_model.specs.Path.{field};
ghost use Rattle.tally.specs.Tally.{tally_room};
ghost use Rattle.store.specs.Store.{tree_room, dir_room};
ghost use Rattle.listing.specs.Carry.{leaving};
ghost use Rattle.listing.specs.Say.{answer_text_most};
ghost use Rattle.listing.specs.Answers.{kept_most};
ghost use Rattle.listing.specs.Program.{program_limit, read_most, ByReads, StoppedByReads};

use crate::answer::{answer_end, answer_part};
use crate::say::ANSWER;
use std::io;
use std::io::Read;
use store::open::open;
use store::state::{RECORD_MOST, State};
use tally::item::ITEM;
use text::entry_line::LINE_MOST;

mod answer;
mod carry;
mod list;
mod say;

const LIMIT: usize = 64;

const TREE: usize = RECORD_MOST * LIMIT;

const NUMBERS: usize = 2 * LIMIT;

const TALLY: usize = ITEM * LIMIT;

// The most bytes of a read, of its answers, and of a line that is kept.
const READ: usize = 2048;

const ANSWERS: usize = ANSWER * READ;

const KEPT: usize = LINE_MOST + 1;

// The state that reads led to, and how many bytes are kept of the line that has begun.
#[derive(Clone, Copy)]
struct Begun {
    state: State,
    kept: usize,
}

// The store's buffers, its prune list and the line's, with just the room that each asks for.

fn tree_bytes() -> [u8; TREE]
    ensures { length result ≡ tree_room field program_limit }
{
    [0; TREE]
}

fn numbers() -> [u32; NUMBERS]
    ensures { length result ≡ dir_room program_limit }
{
    [0; NUMBERS]
}

fn tally_bytes() -> [u8; TALLY]
    ensures { length result ≡ tally_room program_limit }
{
    [0; TALLY]
}

fn line_bytes() -> [u8; KEPT]
    ensures { length result ≡ kept_most }
{
    [0; KEPT]
}

// Room for a read.
fn read_bytes() -> [u8; READ]
    ensures { length result ≡ read_most }
{
    [0; READ]
}

// Room for an answer to each byte of a read, should all be newlines.
fn answer_bytes() -> [u8; ANSWERS]
    ensures { length result ≡ answer_text_most * read_most }
{
    [0; ANSWERS]
}

// Whether a read of so many bytes was the last: it did not fill its buffer, so the input has ended.
fn is_last(got: usize) -> bool
    ensures { result ≡ ltb got read_most }
{
    got < READ
}

// Reads until the buffer is full or the input has ended; answers how many bytes were read.
fn read_full<R: Read>(reader: &mut R, bytes: &mut [u8]) -> io::Result<usize>
    ensures { IfOk result (λ n. n ≤ length bytes.new) }
{
    let mut done = 0;
    // Kept (3): how many places a turn goes on is what its read says.
    while done < bytes.len() {
        let n = reader.read(&mut bytes[done..])?;
        if n == 0 {
            return Ok(done);
        }
        done += n;
    }
    Ok(done)
}

// Kept (5): the store's buffers are lent one by one: a clause could name what a struct of `&mut` leaves only by the numbers of its parts.

// Reads the input, and prints the answers to the lines that end in each read.
fn answer_reads<R: Input + Print>(
    rt: &R,
    opened: State,
    spt: &mut [u8],
    spt_dir: &mut [u32],
    tsp: &mut [u8],
    tsp_dir: &mut [u32],
    tally: &mut [u8],
    prune: &mut [u32],
    line: &mut [u8],
    out: &mut [u8],
) -> io::Result<Begun>
    requires { (length line.old ≡ kept_most) × (answer_text_most * read_most ≤ length out.old) }
    ensures ok { IfOk result (λ begun. (begun.kept ≤ kept_most) × ByReads (leaving opened spt.old spt_dir.old tsp.old tsp_dir.old tally.old prune.old) (leaving begun.state spt.new spt_dir.new tsp.new tsp_dir.new tally.new prune.new) (take begun.kept line.new)) }
    ensures err { OnErr result (StoppedByReads (leaving opened spt.old spt_dir.old tsp.old tsp_dir.old tally.old prune.old) spt.new spt_dir.new tsp.new tsp_dir.new tally.new prune.new line.new) }
{
    let mut state = opened;
    let mut kept = 0;
    let mut input = read_bytes();
    let mut reader = rt.reader();
    for _ in 0..u64::MAX {
        let got = read_full(&mut reader, &mut input)?;
        let part = answer_part(
            &input[..got],
            state,
            spt,
            spt_dir,
            tsp,
            tsp_dir,
            tally,
            prune,
            line,
            kept,
            out,
        );
        rt.write_all(&out[..part.written])?;
        state = part.state;
        kept = part.kept;
        if is_last(got) {
            return Ok(Begun { state, kept });
        }
    }
    Ok(Begun { state, kept })
}

// The program over its buffers: the store's, its tally and the prune list, with the limit's room, the line's, and the answers'.
fn run<R: Input + Print>(
    rt: &R,
    spt: &mut [u8],
    spt_dir: &mut [u32],
    tsp: &mut [u8],
    tsp_dir: &mut [u32],
    tally: &mut [u8],
    prune: &mut [u32],
    line: &mut [u8],
    out: &mut [u8],
) -> io::Result<()>
    requires { (tree_room field program_limit ≤ length spt.old) × (dir_room program_limit ≤ length spt_dir.old) × (tree_room field program_limit ≤ length tsp.old) × (dir_room program_limit ≤ length tsp_dir.old) × (tally_room program_limit ≤ length tally.old) × (dir_room program_limit ≤ length prune.old) × (length line.old ≡ kept_most) × (answer_text_most * read_most ≤ length out.old) }
{
    let Ok(opened) = open([0; 16], LIMIT, spt, spt_dir, tsp, tsp_dir, tally) else {
        return Ok(());
    };
    let begun = answer_reads(
        rt, opened, spt, spt_dir, tsp, tsp_dir, tally, prune, line, out,
    )?;
    let n = answer_end(
        &line[..begun.kept],
        begun.state,
        spt,
        spt_dir,
        tsp,
        tsp_dir,
        tally,
        prune,
        out,
    );
    rt.write_all(&out[..n])
}

fn main(rt: HostRuntime) -> io::Result<()> {
    let mut spt = tree_bytes();
    let mut spt_dir = numbers();
    let mut tsp = tree_bytes();
    let mut tsp_dir = numbers();
    let mut tally = tally_bytes();
    let mut prune = numbers();
    let mut line = line_bytes();
    let mut out = answer_bytes();
    run(
        &rt,
        &mut spt,
        &mut spt_dir,
        &mut tsp,
        &mut tsp_dir,
        &mut tally,
        &mut prune,
        &mut line,
        &mut out,
    )
}
