// Text: the fields of a line read and written, numbers in decimal, bytes in hex, paths, subspaces and digests; and the lines of the
// listing program. Readers of a field or a line have no `requires`: what is not of the form is answered so. A writer writes at the front of the buffer that it
// is lent, and answers how many bytes.
#![tactic(auto)]

pub mod decimal;
pub mod entry_line;
pub mod hex;
pub mod line;
pub mod path;
pub mod path_text;
pub mod value;
