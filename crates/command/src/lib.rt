// The commands of document 01: the table of headers, the parameter words by their kinds, the fields of a format word, and the
// commands with the words that they are read from and written to. A word is refused with 2, 3 or 4; the refusals are named
// in the crate `refusal`.
#![tactic(auto)]

pub mod commands;
pub mod format;
pub mod kinds;
pub mod table;
