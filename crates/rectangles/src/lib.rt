// Rectangles of elements between lent memory and a lent room, at the speed of memory: a row by its runs, and whole tiles by their
// rows. The caller has judged the layout, the rectangle and both lengths; nothing is refused here.
#![tactic(auto)]

pub mod bulk;
mod linear;
mod parts;
mod plan;
mod rows;
mod runs;
mod stretch;
mod tiles;
