//! The summary of a small graph.

use crate::tests::answers::expect;
use gp_cli::summary;
use gp_gen::Kind;
use gp_hostfile::read_host;
use std::test::Fail;

const HOST: &str = "[ (a, empty # red) (b, empty # blue) (c, empty) (d(R), empty # red) | ]";

const SUMMARY: &[u8] = b"kind tree\nsize 2\nnodes 4\nedges 0\nred 2\nblue 1\nsteps 5\n";

#[test]
fn marks_are_counted(rt: HostRuntime) -> Result<(), Fail> {
    let host = read_host(rt.alloc(), HOST.as_bytes())?;
    let text = summary(rt.alloc(), Kind::Tree, 2, &host, 5)?;
    expect(text.as_slice() == SUMMARY, "a summary")
}
