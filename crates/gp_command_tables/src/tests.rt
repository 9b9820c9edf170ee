//! What words, files and sinks come to.

mod answers;
mod calls;
mod crews;
mod demos;
mod devices;
mod outside;
mod texts;
mod words;
