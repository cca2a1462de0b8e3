//! The index text, byte for byte.
mod faults;
mod large;
mod opening;
mod sample;
mod vectors;
mod written;
