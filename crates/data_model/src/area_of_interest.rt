// An area with limits on what is wanted of it: at most so many entries, so many bytes of payload; the greatest number means no limit.
use crate::area::Area;

#[derive(Clone, Copy)]
pub struct AreaOfInterest {
    pub area: Area,
    pub max_count: u64,
    pub max_size: u64,
}
