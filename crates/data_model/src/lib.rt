// The data model: paths, entries, ranges and areas. The public entries have no `requires`. `checked` and `above` are for the layers above
// and below these entries: their functions may ask what a caller has tested already, as that a path is legal.
// The types' files use neither; `questions` and `area_range` have the methods of these types that do.
#![tactic(auto)]

pub mod above;
pub mod answer;
pub mod area;
pub mod area_of_interest;
mod area_range;
pub mod checked;
pub mod entry;
pub mod entry_origin;
pub mod parameters;
pub mod path;
pub mod query_ignore_params;
mod questions;
pub mod range;
pub mod range_3d;
