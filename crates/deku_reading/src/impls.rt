//! The types that can be read.

mod array;
mod bool;
mod boxed;
mod bytes;
mod counted;
mod cow;
mod gather;
mod hashmap;
mod hashset;
mod net;
mod nonzero;
mod option;
mod primitive;
mod tuple;
mod unit;
mod vec;
