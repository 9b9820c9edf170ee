//! What stays the same while a label is read.

use std::alloc::Global;

/// How many atoms of a list, or characters of a string, are to spare for the variable that takes what is left.
#[derive(Clone, Copy)]
pub(crate) struct Reading {
    pub alloc: Global,
    pub spare: usize,
}
