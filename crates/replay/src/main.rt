// The store's calls through the door, one a line: its number and values (src/field.rt) in hex; the answer is its values and, last, the state.
#![tactic(auto)]

ghost use Rattle.std.specs.Prelude.{◌≡◌, length};
ghost use Rattle.data_model.specs.Path.{field};
ghost use Rattle.tally.specs.Tally.{tally_room};
ghost use Rattle.store.specs.Store.{limit_most, tree_room, dir_room};

use std::io;
use store::state::{LIMIT_MOST, RECORD_MOST, State};
use tally::item::ITEM;

mod call;
mod field;
mod line;

const TREE: usize = RECORD_MOST * LIMIT_MOST;

const DIRECTORY: usize = 2 * LIMIT_MOST;

const TALLY: usize = ITEM * LIMIT_MOST;

// The buffers of a store of any limit.

fn tree_buffer() -> [u8; TREE]
    ensures { tree_room field limit_most ≡ length result }
{
    [0; TREE]
}

fn pair_buffer() -> [u32; DIRECTORY]
    ensures { dir_room limit_most ≡ length result }
{
    [0; DIRECTORY]
}

fn tally_buffer() -> [u8; TALLY]
    ensures { tally_room limit_most ≡ length result }
{
    [0; TALLY]
}

fn main(rt: HostRuntime) -> io::Result<()> {
    let mut reader = rt.reader();
    let mut spt = tree_buffer();
    let mut spt_dir = pair_buffer();
    let mut tsp = tree_buffer();
    let mut tsp_dir = pair_buffer();
    let mut tally = tally_buffer();
    let mut state = State {
        namespace_id: [0; 16],
        count: 0,
        limit: 0,
    };
    for _ in 0..u64::MAX {
        let mut q = [0; 2048];
        if !line::read_line(&mut reader, &mut q)? {
            return Ok(());
        }
        state = call::turn(
            &rt,
            &q,
            state,
            &mut spt,
            &mut spt_dir,
            &mut tsp,
            &mut tsp_dir,
            &mut tally,
        )?;
        println!(rt; "")?;
    }
    Ok(())
}
