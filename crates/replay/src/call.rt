// The calls of a store, by their numbers.
use crate::field;
use crate::line::{tell, tell_bytes, tell_numbers, tell_sizes};
use data_model::entry::Entry;
use data_model::parameters::Subspace;
use data_model::path::Path;
use pairs::Pair;
use plain::answer::{PlainCounted, PlainListed};
use plain::input::{PlainIgnore, PlainInterest, PlainPairs, PlainRange};
use plain::part::PlainPart;
use std::io;
use store::state::{LIMIT_MOST, State, Store};
use virebony::{change, reading};

// A state: its namespace, its count and its limit.
fn tell_state(rt: &impl Print, s: State) -> io::Result<()> {
    tell_bytes(rt, &s.namespace_id)?;
    tell(rt, s.count as u64)?;
    tell(rt, s.limit as u64)
}

// A subspace: its two numbers.
fn tell_subspace(rt: &impl Print, s: Subspace) -> io::Result<()> {
    tell(rt, s.high)?;
    tell(rt, s.low)
}

// A path: its bytes, its ends and its count.
fn tell_path(rt: &impl Print, p: Path) -> io::Result<()> {
    tell_bytes(rt, &p.bytes)?;
    tell_sizes(rt, &p.ends)?;
    tell(rt, p.count as u64)
}

// An entry and its token.
fn tell_entry(rt: &impl Print, e: Entry, token: &[u8; 64]) -> io::Result<()> {
    tell_bytes(rt, &e.namespace_id)?;
    tell_subspace(rt, e.subspace_id)?;
    tell_path(rt, e.path)?;
    tell(rt, e.timestamp)?;
    tell(rt, e.payload_length)?;
    tell_bytes(rt, &e.payload_digest)?;
    tell_bytes(rt, token)
}

// A range: its subspaces, its paths and its times.
fn tell_range(rt: &impl Print, r: PlainRange) -> io::Result<()> {
    tell_subspace(rt, r.subspaces.start)?;
    tell_subspace(rt, r.subspaces.end)?;
    tell(rt, u64::from(r.subspaces.open))?;
    tell_path(rt, r.paths.start)?;
    tell_path(rt, r.paths.end)?;
    tell(rt, u64::from(r.paths.open))?;
    tell(rt, r.times.start)?;
    tell(rt, r.times.end)?;
    tell(rt, u64::from(r.times.open))
}

// A listing's answer: the refusal, whether a record was found, where it lies, and the record.
fn tell_match(rt: &impl Print, l: PlainListed, p: PlainPart, spt: &[u8]) -> io::Result<()> {
    tell(rt, u64::from(l.refusal))?;
    tell(rt, l.found as u64)?;
    tell(rt, p.offset as u64)?;
    tell(rt, p.length as u64)?;
    if p.offset <= spt.len() && p.length <= spt.len() - p.offset {
        tell_bytes(rt, &spt[p.offset..p.offset + p.length])?;
    }
    Ok(())
}

// A count: the refusal and the count.
fn tell_count(rt: &impl Print, n: PlainCounted) -> io::Result<()> {
    tell(rt, u64::from(n.refusal))?;
    tell(rt, n.count as u64)
}

// Kept (5): the calls that change a store lend its buffers one by one, as C does; a clause could name what a struct of &mut leaves only by the numbers of its parts.

// Through `pairs::ingest_entry` itself. An obsolete verdict tells the newer entry, a success the pruned pairs.
fn ingest(
    rt: &impl Print,
    q: &[u8],
    state: State,
    spt: &mut [u8],
    spt_dir: &mut [u32],
    tsp: &mut [u8],
    tsp_dir: &mut [u32],
    tally: &mut [u8],
) -> io::Result<State> {
    let prune = PlainPairs {
        pairs: [Pair {
            offset: 0,
            length: 0,
        }; LIMIT_MOST],
    };
    let r = change::vb_ingest_entry_by_value(
        state,
        spt,
        spt_dir,
        tsp,
        tsp_dir,
        tally,
        prune,
        field::entry(q),
        &field::token(q),
        field::flag(q, 33),
        field::origin(q),
    );
    let v = r.ingested;
    tell(rt, u64::from(v.refusal))?;
    tell(rt, v.obsolete as u64)?;
    tell(rt, v.held as u64)?;
    tell(rt, v.pruned as u64)?;
    if v.obsolete {
        tell_entry(rt, v.newer, &v.token)?;
    }
    tell_numbers(rt, &r.numbers)?;
    Ok(v.state)
}

// Records how much of a payload has arrived.
fn record(
    rt: &impl Print,
    q: &[u8],
    state: State,
    spt: &mut [u8],
    spt_dir: &[u32],
    tsp: &mut [u8],
    tsp_dir: &[u32],
) -> io::Result<State> {
    let r = change::vb_record_available_length(
        state,
        spt,
        spt_dir,
        tsp,
        tsp_dir,
        field::subspace(q, 2),
        field::path(q, 4),
        field::flag(q, 33),
        &field::digest(q),
        field::number(q, 34),
    );
    tell(rt, u64::from(r.refusal))?;
    Ok(r.state)
}

// Forgets how much of a payload has arrived.
fn unrecord(
    rt: &impl Print,
    q: &[u8],
    state: State,
    spt: &mut [u8],
    spt_dir: &[u32],
    tsp: &mut [u8],
    tsp_dir: &[u32],
) -> io::Result<State> {
    let r = change::vb_forget_payload(
        state,
        spt,
        spt_dir,
        tsp,
        tsp_dir,
        field::subspace(q, 2),
        field::path(q, 4),
        field::flag(q, 33),
        &field::digest(q),
    );
    tell(rt, u64::from(r.refusal))?;
    Ok(r.state)
}

// Writes a number's 8 bytes at a place, if they have room there.
fn poke(s: &mut [u8], at: usize, x: u64) {
    if at < s.len() && 8 <= s.len() - at {
        keys::number::write_u64(x, &mut s[at..]);
    }
}

// 1 opens, 2 ingests, 3 forgets an entry, 4 forgets an area, c records an available length, e forgets it; d writes 8 bytes into the tally, from outside.
fn act(
    rt: &impl Print,
    q: &[u8],
    state: State,
    spt: &mut [u8],
    spt_dir: &mut [u32],
    tsp: &mut [u8],
    tsp_dir: &mut [u32],
    tally: &mut [u8],
) -> io::Result<State> {
    // Kept (7): the number is read off a line of text, and a table by it would be of function pointers.
    match field::number(q, 0) {
        1 => {
            let limit = field::number(q, 33) as usize;
            let r = change::vb_open(
                &field::namespace(q),
                limit,
                spt,
                spt_dir,
                tsp,
                tsp_dir,
                tally,
            );
            tell(rt, u64::from(r.refusal))?;
            Ok(r.state)
        }
        2 => ingest(rt, q, state, spt, spt_dir, tsp, tsp_dir, tally),
        3 => {
            let r = change::vb_forget_entry(
                state,
                spt,
                spt_dir,
                tsp,
                tsp_dir,
                tally,
                field::subspace(q, 2),
                field::path(q, 4),
                field::flag(q, 33),
                &field::digest(q),
            );
            tell(rt, u64::from(r.refusal))?;
            Ok(r.state)
        }
        4 => {
            let r = change::vb_forget_area(
                state,
                spt,
                spt_dir,
                tsp,
                tsp_dir,
                tally,
                field::area(q),
                field::flag(q, 33),
                field::kept(q),
            );
            tell(rt, u64::from(r.refusal))?;
            tell(rt, r.forgotten as u64)?;
            Ok(r.state)
        }
        12 => record(rt, q, state, spt, spt_dir, tsp, tsp_dir),
        13 => {
            poke(tally, field::number(q, 33) as usize, field::number(q, 14));
            Ok(state)
        }
        14 => unrecord(rt, q, state, spt, spt_dir, tsp, tsp_dir),
        _ => Ok(state),
    }
}

// The entry at a subspace and path, or none.
fn find(rt: &impl Print, q: &[u8], store: Store, ignore: PlainIgnore) -> io::Result<()> {
    let f = reading::vb_find_entry(
        store.state,
        store.spt,
        store.spt_dir,
        store.tsp,
        store.tsp_dir,
        field::subspace(q, 2),
        field::path(q, 4),
        ignore,
    );
    let l = f.lengthy;
    tell(rt, u64::from(f.refusal))?;
    tell(rt, f.found as u64)?;
    tell_entry(rt, l.entry, &l.token)?;
    tell(rt, l.available)?;
    tell(rt, u64::from(l.origin.remote))?;
    tell(rt, l.origin.session)
}

// A step of an area's listing, from the key that it remembers.
fn list_area(
    rt: &impl Print,
    q: &[u8],
    store: Store,
    ignore: PlainIgnore,
    last: &[u8],
) -> io::Result<()> {
    let area = field::area(q);
    let l = reading::vb_query_area_found(
        store.state,
        store.spt,
        store.spt_dir,
        store.tsp,
        store.tsp_dir,
        area,
        ignore,
        last,
    );
    let p = reading::vb_query_area(
        store.state,
        store.spt,
        store.spt_dir,
        store.tsp,
        store.tsp_dir,
        area,
        ignore,
        last,
    );
    tell_match(rt, l, p, store.spt)
}

// A step of a range's listing, from the key that it remembers.
fn list_range(
    rt: &impl Print,
    q: &[u8],
    store: Store,
    ignore: PlainIgnore,
    last: &[u8],
) -> io::Result<()> {
    let range = field::range(q);
    let l = reading::vb_query_range_found(
        store.state,
        store.spt,
        store.spt_dir,
        store.tsp,
        store.tsp_dir,
        range,
        ignore,
        last,
    );
    let p = reading::vb_query_range(
        store.state,
        store.spt,
        store.spt_dir,
        store.tsp,
        store.tsp_dir,
        range,
        ignore,
        last,
    );
    tell_match(rt, l, p, store.spt)
}

// The range of an area of interest.
fn interest(rt: &impl Print, q: &[u8], store: Store) -> io::Result<()> {
    let r = reading::vb_area_of_interest_to_range(
        store.state,
        store.spt,
        store.spt_dir,
        store.tsp,
        store.tsp_dir,
        PlainInterest {
            area: field::area(q),
            max_count: field::number(q, 33),
            max_size: field::number(q, 34),
        },
    );
    tell(rt, u64::from(r.refusal))?;
    tell_range(rt, r.range)
}

// 5 finds an entry, 6 and 7 make a step of an area's and of a range's listing, 8 and 9 count the entries of an area and of a range, a is an area of interest, b tells the buffers.
fn look(rt: &impl Print, q: &[u8], store: Store, tally: &[u8]) -> io::Result<()> {
    let Store {
        state,
        spt,
        spt_dir,
        tsp,
        tsp_dir,
    } = store;
    let ignore = PlainIgnore {
        incomplete_payloads: field::flag(q, 33),
        empty_payloads: field::flag(q, 34),
    };
    let mut buffer = [0; field::LAST_MOST];
    match field::number(q, 0) {
        5 => find(rt, q, store, ignore),
        6 => list_area(rt, q, store, ignore, field::last(q, &mut buffer)),
        7 => list_range(rt, q, store, ignore, field::last(q, &mut buffer)),
        8 => tell_count(
            rt,
            reading::vb_count_area(state, spt, spt_dir, tsp, tsp_dir, field::area(q)),
        ),
        9 => tell_count(
            rt,
            reading::vb_summarise(state, spt, spt_dir, tsp, tsp_dir, field::range(q)),
        ),
        10 => interest(rt, q, store),
        11 => {
            tell_bytes(rt, spt)?;
            tell_numbers(rt, spt_dir)?;
            tell_bytes(rt, tsp)?;
            tell_numbers(rt, tsp_dir)?;
            tell_bytes(rt, tally)
        }
        _ => Ok(()),
    }
}

// A line's call: what it changes, then what it reads, then the state that it leaves.
pub fn turn(
    rt: &impl Print,
    q: &[u8],
    given: State,
    spt: &mut [u8],
    spt_dir: &mut [u32],
    tsp: &mut [u8],
    tsp_dir: &mut [u32],
    tally: &mut [u8],
) -> io::Result<State> {
    let state = act(rt, q, given, spt, spt_dir, tsp, tsp_dir, tally)?;
    let store = Store {
        state,
        spt,
        spt_dir,
        tsp,
        tsp_dir,
    };
    look(rt, q, store, tally)?;
    tell_state(rt, state)?;
    Ok(state)
}
