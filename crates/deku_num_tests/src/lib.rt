//! Tests of the words of `deku_bits`, and of the contexts of `deku_num`, through their public
//! calls.
#![tactic(auto)]

#[cfg(test)]
mod ctx;
#[cfg(test)]
mod words;
