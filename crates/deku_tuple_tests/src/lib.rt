//! Tests of tuples and arrays of numbers that are read and written as one word, by the paths that
//! users name.
#![tactic(auto)]

#[cfg(test)]
mod arrays;
#[cfg(test)]
mod joined;
