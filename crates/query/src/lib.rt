// The store's reading half. The public entries are `entry::entry`, `listing::query_area`, `listing::query_area_found`, `listing::query_range`,
// `listing::query_range_found`, `listing::record_key`, `count::count_area`, `count::summarise` and `interest::area_of_interest_to_range`: they have no `requires`
// and write nothing; all but `record_key`, which is handed a record, are lent the store's buffers shared.
#![tactic(auto)]

pub mod answer;
pub mod check;
pub mod count;
pub mod entry;
pub mod grouping;
pub mod interest;
pub mod listing;
pub mod step;
