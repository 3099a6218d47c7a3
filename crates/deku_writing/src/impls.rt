//! The types that can be written.

mod array;
mod bool;
mod boxed;
mod bytes;
mod cow;
mod hashmap;
mod hashset;
mod net;
mod nonzero;
mod option;
mod primitive;
mod reference;
mod slice;
mod tuple;
mod unit;
mod vec;
