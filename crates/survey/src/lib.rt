// Surveys: the bytes of many pairs of a layout that was judged, and whether lent memory holds their numbers. Numbers have 16 bits; the
// row step is given in bytes, as the stride. Nothing is refused here.
#![tactic(auto)]

pub mod held;
pub mod rows;
