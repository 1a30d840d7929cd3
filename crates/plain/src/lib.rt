// What a C program can say, and what the store's calls are handed and answer: enums cross as plain numbers beside their values.
// Every function here has an equation with a definition of specs/. A yes or no is a byte, and every byte but 0 means yes.
#![tactic(auto)]

pub mod answer;
pub mod change;
pub mod found;
pub mod input;
pub mod key_answer;
pub mod part;
pub mod range_answer;
pub mod rows;
