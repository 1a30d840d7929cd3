// Paths by value, and which are legal.
ghost use Rattle.std.specs.Prelude.{◌≡◌, [], ◌&&◌};
ghost use Rattle.data_model.specs.Path.{field, legal, legal_ends, path_of};

// The most bytes of a component, components of a path, and bytes of a path: the figures that judge it.
pub const MCL: usize = 64;

pub const MCC: usize = 8;

pub const MPL: usize = 128;

// How many bytes and how many ends a path value has room for, whatever figures judge it.
pub const PATH_BYTES: usize = 128;

pub const PATH_ENDS: usize = 8;

// How many bytes one component has room for where it is handed out by itself.
pub const COMPONENT_BYTES: usize = 64;

// The component ends, of which the first `count` count, cut the bytes; what lies behind is never looked at.
// Kept (6): 01 fixes this value, 128 bytes, 8 ends and a count; C sees it, and there is no heap.
#[repr(C)]
#[derive(Clone, Copy)]
pub struct Path {
    pub bytes: [u8; PATH_BYTES],
    pub ends: [usize; PATH_ENDS],
    pub count: usize,
}

// Whether ends don't descend, components have at most mcl bytes, and the total is at most mpl.
fn legal_ends(ends: &[usize], mcl: usize, mpl: usize) -> bool
    ensures { result ≡ legal_ends mcl mpl 0 ends.now }
{
    let mut from = 0;
    for &end in ends {
        if end < from || mcl < end - from {
            return false;
        }
        from = end;
    }
    from <= mpl
}

// Whether both paths are legal.
pub fn both_legal(p: Path, q: Path) -> bool
    ensures { result ≡ (legal field p && legal field q) }
{
    p.is_legal() && q.is_legal()
}

impl Path {
    // The path of no components: all 0.
    #[tactic(auto, unfolding(crate::specs::Path::value_of, crate::specs::Path::path_of, crate::specs::Path::joined, crate::specs::Path::ends_from))]
    pub fn new_empty() -> Path
        ensures { result ≡ path_of [] }
    {
        Path {
            bytes: [0; PATH_BYTES],
            ends: [0; PATH_ENDS],
            count: 0,
        }
    }

    // Whether the path keeps to the figures and its ends don't descend.
    #[tactic(auto, unfolding(crate::specs::Path::legal))]
    pub fn is_legal(self) -> bool
        ensures { result ≡ legal field self }
    {
        self.count <= MCC && legal_ends(&self.ends[..self.count], MCL, MPL)
    }
}
