// Lines answered: each is carried out on what the one before it left, and the answers stand one behind another in a buffer.
ghost use Rattle.std.specs.Prelude.{◌≡◌, [], ◌∷◌, ◌++◌, ◌+◌, ◌*◌, ◌≤◌, length, take};
ghost use Rattle.laws.specs.Lists.{put};
ghost use Rattle.data_model.specs.Path.{field};
ghost use Rattle.listing.specs.Input.{last_line};
ghost use Rattle.listing.specs.Carry.{leaving};
ghost use Rattle.listing.specs.Say.{answer_text_most};
ghost use Rattle.listing.specs.List.{list_text_most};
ghost use Rattle.listing.specs.Answers.{as_written, lines_written, kept_most, as_written_part, part_written};
ghost use Rattle.listing.specs.Program.{program_limit, answers_and_list, AfterReads};

use crate::carry::carry_out;
use crate::list::write_list;
use crate::say::write_answer;
use store::state::{State, Store};
use text::line::{field_end, write_bytes};

// The state that lines leave, and how many bytes their answers have.
#[derive(Clone, Copy)]
pub struct Answered {
    pub state: State,
    pub written: usize,
}

// Of a part of the input: the state that its lines leave, how many bytes their answers have, and how many are kept of the next line.
#[derive(Clone, Copy)]
pub struct Part {
    pub state: State,
    pub written: usize,
    pub kept: usize,
}

// Adds bytes to the first n of a line, as far as there is room.
fn append(line: &mut [u8], n: usize, bytes: &[u8]) -> usize
    requires { n ≤ length line.old }
    ensures { (result ≤ length line.old) × (take result line.new ≡ take (length line.old) (take n line.old ++ bytes.now)) }
{
    let taken = bytes.len().min(line.len() - n);
    n + write_bytes(&bytes[..taken], &mut line[n..])
}

// Kept (5): the store's buffers are lent one by one: a clause could name what a struct of `&mut` leaves only by the numbers of its parts.

// A line, carried out and answered.
fn answer_line(
    line: &[u8],
    given: State,
    spt: &mut [u8],
    spt_dir: &mut [u32],
    tsp: &mut [u8],
    tsp_dir: &mut [u32],
    tally: &mut [u8],
    prune: &mut [u32],
    out: &mut [u8],
) -> Answered
    requires { answer_text_most ≤ length out.old }
    ensures { (result.written ≤ answer_text_most) × (as_written result spt.new spt_dir.new tsp.new tsp_dir.new tally.new prune.new out.new ≡ lines_written field (leaving given spt.old spt_dir.old tsp.old tsp_dir.old tally.old prune.old) (line.now ∷ []) out.old) }
{
    let a = carry_out(line, given, spt, spt_dir, tsp, tsp_dir, tally, prune);
    Answered {
        state: a.state,
        written: write_answer(a.answer, out),
    }
}

// A part of the input: every line whose newline stands in it, the first of them behind the first so_far bytes of `line`. Of the line
// behind the last newline, `line` then keeps what there is room for.
pub fn answer_part(
    bytes: &[u8],
    given: State,
    spt: &mut [u8],
    spt_dir: &mut [u32],
    tsp: &mut [u8],
    tsp_dir: &mut [u32],
    tally: &mut [u8],
    prune: &mut [u32],
    line: &mut [u8],
    so_far: usize,
    out: &mut [u8],
) -> Part
    requires { (length line.old ≡ kept_most) × (so_far ≤ kept_most) × (answer_text_most * length bytes.now ≤ length out.old) }
    ensures { (result.kept ≤ kept_most) × (result.written ≤ length out.old) × (as_written_part result spt.new spt_dir.new tsp.new tsp_dir.new tally.new prune.new line.new out.new ≡ part_written field (leaving given spt.old spt_dir.old tsp.old tsp_dir.old tally.old prune.old) (take so_far line.old) bytes.now out.old) }
{
    let mut state = given;
    let mut n = so_far;
    let mut at = 0;
    let mut to = 0;
    let mut stop = field_end(bytes, b'\n', 0);
    // Kept (3): `split` would hand out what stands behind the last newline as it hands out the lines that have ended.
    while stop < bytes.len() {
        let m = append(line, n, &bytes[at..stop]);
        let a = answer_line(
            &line[..m],
            state,
            spt,
            spt_dir,
            tsp,
            tsp_dir,
            tally,
            prune,
            &mut out[to..],
        );
        state = a.state;
        to += a.written;
        n = 0;
        at = stop + 1;
        stop = field_end(bytes, b'\n', at);
    }
    Part {
        state,
        written: to,
        kept: append(line, n, &bytes[at..]),
    }
}

// The line that has begun when the input ends: a line without its newline, if it has bytes.
fn answer_last(
    line: &[u8],
    given: State,
    spt: &mut [u8],
    spt_dir: &mut [u32],
    tsp: &mut [u8],
    tsp_dir: &mut [u32],
    tally: &mut [u8],
    prune: &mut [u32],
    out: &mut [u8],
) -> Answered
    requires { answer_text_most ≤ length out.old }
    ensures { (result.written ≤ answer_text_most) × (as_written result spt.new spt_dir.new tsp.new tsp_dir.new tally.new prune.new out.new ≡ lines_written field (leaving given spt.old spt_dir.old tsp.old tsp_dir.old tally.old prune.old) (last_line line.now) out.old) }
{
    if line.is_empty() {
        return Answered {
            state: given,
            written: 0,
        };
    }
    answer_line(line, given, spt, spt_dir, tsp, tsp_dir, tally, prune, out)
}

// The end of the input: the answer to its last line, and the list.
pub fn answer_end(
    line: &[u8],
    given: State,
    spt: &mut [u8],
    spt_dir: &mut [u32],
    tsp: &mut [u8],
    tsp_dir: &mut [u32],
    tally: &mut [u8],
    prune: &mut [u32],
    out: &mut [u8],
) -> usize
    requires { AfterReads (leaving given spt.old spt_dir.old tsp.old tsp_dir.old tally.old prune.old) line.now × (answer_text_most + list_text_most program_limit ≤ length out.old) }
    ensures { (result ≡ length (answers_and_list (leaving given spt.old spt_dir.old tsp.old tsp_dir.old tally.old prune.old) (last_line line.now))) × (result ≤ length out.old) × (out.new ≡ put (answers_and_list (leaving given spt.old spt_dir.old tsp.old tsp_dir.old tally.old prune.old) (last_line line.now)) out.old) }
{
    let a = answer_last(line, given, spt, spt_dir, tsp, tsp_dir, tally, prune, out);
    let store = Store {
        state: a.state,
        spt,
        spt_dir,
        tsp,
        tsp_dir,
    };
    a.written + write_list(store, &mut out[a.written..])
}
