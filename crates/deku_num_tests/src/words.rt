//! Words, against slow functions over truth values, at each width, order and offset.

mod ends;
mod high;
mod laid;
mod read;
mod runs;
mod written;
