// Values that a caller hands in, and what they stand for.
// Kept (1): C has no enum with values, so a yes or no stands beside the value of an end, a subspace, an origin or a digest that may be absent.
// Kept (4): `is_yes` reads a byte that C hands in, of which more than one means yes.
// Kept (2): an exported function takes no generic struct, so the three ranges are structs apart; `end_of` reads the end of each.
ghost use Rattle.std.specs.Prelude.{◌≡◌};
ghost use Rattle.plain.specs.Input.{is_yes, given, end_of, times_of, subspaces_of, paths_of, area_of, range_of, interest_of, ignore_of, origin_in, ingestion_of};

use data_model::area::{Area, AreaSubspace};
use data_model::area_of_interest::AreaOfInterest;
use data_model::entry::Entry;
use data_model::entry_origin::EntryOrigin;
use data_model::parameters::Subspace;
use data_model::path::Path;
use data_model::query_ignore_params::QueryIgnoreParams;
use data_model::range::{Range, RangeEnd};
use data_model::range_3d::Range3d;
use pairs::Pair;
use store::ingest::Ingestion;
use store::state::LIMIT_MOST;

// From `start` up to `end`, which is outside; if `open` is yes there is no end and `end` is not looked at.
#[repr(C)]
#[derive(Clone, Copy)]
pub struct PlainTimes {
    pub start: u64,
    pub end: u64,
    pub open: u8,
}

// From `start` up to `end`, which is outside; if `open` is yes there is no end and `end` is not looked at.
#[repr(C)]
#[derive(Clone, Copy)]
pub struct PlainSubspaces {
    pub start: Subspace,
    pub end: Subspace,
    pub open: u8,
}

// From `start` up to `end`, which is outside; if `open` is yes there is no end and `end` is not looked at.
#[repr(C)]
#[derive(Clone, Copy)]
pub struct PlainPaths {
    pub start: Path,
    pub end: Path,
    pub open: u8,
}

// If `any_subspace` is yes, every subspace is in the area and `subspace` is not looked at.
#[repr(C)]
#[derive(Clone, Copy)]
pub struct PlainArea {
    pub any_subspace: u8,
    pub subspace: Subspace,
    pub path: Path,
    pub times: PlainTimes,
}

// A range of subspaces, of paths and of times.
#[repr(C)]
#[derive(Clone, Copy)]
pub struct PlainRange {
    pub subspaces: PlainSubspaces,
    pub paths: PlainPaths,
    pub times: PlainTimes,
}

// At most so many entries of an area, and so many bytes of payload; the greatest number means no limit.
#[repr(C)]
#[derive(Clone, Copy)]
pub struct PlainInterest {
    pub area: PlainArea,
    pub max_count: u64,
    pub max_size: u64,
}

// Which entries a query ignores: those whose payload is not all there, those of an empty payload.
#[repr(C)]
#[derive(Clone, Copy)]
pub struct PlainIgnore {
    pub incomplete_payloads: u8,
    pub empty_payloads: u8,
}

// If `remote` is yes, the entry came from another source, in the session with this number; else it is local, and `session` is not looked at.
#[repr(C)]
#[derive(Clone, Copy)]
pub struct PlainOrigin {
    pub remote: u8,
    pub session: u64,
}

// A prune list by value, of the most pairs that a store may need.
#[repr(C)]
#[derive(Clone, Copy)]
pub struct PlainPairs {
    pub pairs: [Pair; LIMIT_MOST],
}

// Whether a byte means yes.
pub fn is_yes(flag: u8) -> bool
    ensures { result ≡ is_yes flag }
{
    flag != 0
}

// The value that is handed in beside a yes or no: none if that is no.
pub fn given<T: Copy>(flag: u8, value: T) -> Option<T>
    ensures { result ≡ given flag value }
{
    if is_yes(flag) { Some(value) } else { None }
}

// The end of a range that is handed in beside a yes or no: none if that is yes.
fn end_of<T: Copy>(flag: u8, end: T) -> RangeEnd<T>
    ensures { result ≡ end_of flag end }
{
    if is_yes(flag) {
        RangeEnd::Open
    } else {
        RangeEnd::Closed(end)
    }
}

// The range of times that plain times stand for.
impl From<PlainTimes> for Range<u64> {
    ghost from_gives = { λ plain range. range ≡ times_of plain };

    fn from(plain: PlainTimes) -> Range<u64> {
        Range {
            start: plain.start,
            end: end_of(plain.open, plain.end),
        }
    }
}

// The range of subspaces that plain subspaces stand for.
impl From<PlainSubspaces> for Range<Subspace> {
    ghost from_gives = { λ plain range. range ≡ subspaces_of plain };

    fn from(plain: PlainSubspaces) -> Range<Subspace> {
        Range {
            start: plain.start,
            end: end_of(plain.open, plain.end),
        }
    }
}

// The range of paths that plain paths stand for.
impl From<PlainPaths> for Range<Path> {
    ghost from_gives = { λ plain range. range ≡ paths_of plain };

    fn from(plain: PlainPaths) -> Range<Path> {
        Range {
            start: plain.start,
            end: end_of(plain.open, plain.end),
        }
    }
}

// The area that a plain area stands for.
impl From<PlainArea> for Area {
    ghost from_gives = { λ plain area. area ≡ area_of plain };

    fn from(plain: PlainArea) -> Area {
        Area {
            subspace: if is_yes(plain.any_subspace) {
                AreaSubspace::Any
            } else {
                AreaSubspace::Id(plain.subspace)
            },
            path: plain.path,
            times: plain.times.into(),
        }
    }
}

// The 3d range that a plain range stands for.
impl From<PlainRange> for Range3d {
    ghost from_gives = { λ plain range. range ≡ range_of plain };

    fn from(plain: PlainRange) -> Range3d {
        Range3d {
            subspaces: plain.subspaces.into(),
            paths: plain.paths.into(),
            times: plain.times.into(),
        }
    }
}

// The area of interest that a plain one stands for.
impl From<PlainInterest> for AreaOfInterest {
    ghost from_gives = { λ plain interest. interest ≡ interest_of plain };

    fn from(plain: PlainInterest) -> AreaOfInterest {
        AreaOfInterest {
            area: plain.area.into(),
            max_count: plain.max_count,
            max_size: plain.max_size,
        }
    }
}

// The flags of a query that plain ones stand for.
impl From<PlainIgnore> for QueryIgnoreParams {
    ghost from_gives = { λ plain ignore. ignore ≡ ignore_of plain };

    fn from(plain: PlainIgnore) -> QueryIgnoreParams {
        QueryIgnoreParams {
            ignore_incomplete_payloads: is_yes(plain.incomplete_payloads),
            ignore_empty_payloads: is_yes(plain.empty_payloads),
        }
    }
}

// The origin that a plain one stands for.
impl From<PlainOrigin> for EntryOrigin {
    ghost from_gives = { λ plain origin. origin ≡ origin_in plain };

    fn from(plain: PlainOrigin) -> EntryOrigin {
        if is_yes(plain.remote) {
            EntryOrigin::Remote(plain.session)
        } else {
            EntryOrigin::Local
        }
    }
}

// What an ingestion is handed: an entry, its token, the byte that prevents pruning, and the origin.
pub fn ingestion_of(
    entry: Entry,
    token: [u8; 64],
    prevent_pruning: u8,
    from: PlainOrigin,
) -> Ingestion
    ensures { result ≡ ingestion_of entry token prevent_pruning from }
{
    Ingestion {
        entry,
        token,
        prevent_pruning: is_yes(prevent_pruning),
        origin: from.into(),
    }
}
