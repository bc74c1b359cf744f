//! Tests of the values of the exchange: the crates `wagon_number`, `taf_moment`, `taf_codes` and `trip_plan`.
//!
//! What is expected comes from the rules of the exchange: vehicle numbers with the check digits of their rule, moments of
//! the calendar, codes in their alphabets and lengths, and the first rule that a plan breaks.

mod codes;
mod moments;
mod numbers;
mod plans;
mod streams;
