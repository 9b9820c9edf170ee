//! Concurrent goals, by what their workers are answered.

mod answers;
mod cells;
mod cores;
mod crews;
mod gates;
mod spelled;
mod starting;
mod workers;
