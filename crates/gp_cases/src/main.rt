//! The cases that are tried by running: rows of texts, each with the answer that is wanted.
//!
//! The program reads each file of rows (`data/NAME.rows`) from the folder that it is run in, gives each row to the function
//! of its kind, and writes how many rows a file has, and each row whose answer is another one. `gp_rows` says how rows are
//! written; `gp_rule_cases` has the kinds about texts, rules, matches, steps and searches, `gp_run_cases` those about graphs
//! in memory, journals, commands and crews.
#![tactic(auto)]

use gp_rows::{Answer, Report, Wrong, fields_of};
use std::alloc::Global;
use std::fs;
use std::io::Write;
use std::process::ExitCode;
use std::sync::Wait;
use std::thread::Threads;

// What the rows of a file are about.
#[derive(Clone, Copy)]
enum Kind {
    Rules(gp_rule_cases::Kind),
    Runs(gp_run_cases::Kind),
}

fn read(rt: &HostRuntime, name: &str) -> Result<Vec<u8>, Wrong> {
    let mut path = String::from_str(rt.alloc(), name)?;
    path.push_str(".rows")?;
    Ok(fs::read(rt, path)?)
}

// Tries a row of this kind, if there is one.
fn try_row<R: Threads + Wait + Sync>(
    rt: &R,
    alloc: Global,
    kind: Kind,
    row: &[u8],
    report: &mut Report,
) -> Result<(), Wrong> {
    let fields = fields_of(alloc, row)?;
    if let Some((wanted, inputs)) = fields.split_last() {
        let mut given = Answer::new(alloc);
        match kind {
            Kind::Rules(kind) => gp_rule_cases::answer(kind, alloc, inputs, &mut given),
            Kind::Runs(kind) => gp_run_cases::answer(rt, kind, alloc, inputs, &mut given),
        }
        report.judge(wanted, &given);
    }
    Ok(())
}

// The report of a file of rows of this kind.
fn report_of<R: Threads + Wait + Sync>(
    rt: &R,
    alloc: Global,
    name: &'static str,
    kind: Kind,
    bytes: &[u8],
) -> Result<Answer, Wrong> {
    let mut report = Report::new(alloc, name);
    for line in bytes.split(|byte| *byte == b'\n') {
        let row = report.read(line);
        try_row(rt, alloc, kind, row.text(), &mut report)?;
    }
    Ok(report.text())
}

// Prints a report. Whether it was one, and was printed.
fn is_printed(rt: &HostRuntime, report: Result<Answer, Wrong>) -> bool {
    match report {
        Ok(report) => rt.stdout().write_all(report.text()).is_ok(),
        Err(wrong) => {
            let _ = rt.println(wrong.text());
            false
        }
    }
}

fn main(rt: HostRuntime) -> ExitCode {
    for (name, kind) in &gp_rule_cases::FILES {
        let report = match read(&rt, name) {
            Ok(bytes) => report_of(&rt, rt.alloc(), name, Kind::Rules(*kind), &bytes),
            Err(wrong) => Err(wrong),
        };
        if !is_printed(&rt, report) {
            return ExitCode::FAILURE;
        }
    }
    for (name, kind) in &gp_run_cases::FILES {
        let report = match read(&rt, name) {
            Ok(bytes) => report_of(&rt, rt.alloc(), name, Kind::Runs(*kind), &bytes),
            Err(wrong) => Err(wrong),
        };
        if !is_printed(&rt, report) {
            return ExitCode::FAILURE;
        }
    }
    ExitCode::SUCCESS
}
