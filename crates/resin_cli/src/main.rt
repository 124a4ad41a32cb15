//! The program: serves the trace on standard input over the folder `site/`, and writes the answers to standard output; or audits the journal file
//! of a run, which stands on standard input.
#![tactic(auto)]

mod fault;

use crate::fault::Fault;
use resin_edge::{Folder, StdSink, StdSource};
use resin_serve::{Ended, serve};
use resin_sqlite::{DatabaseFault, SqliteTables};
use std::fs::{File, OpenOptions};
use std::process::ExitCode;
use std::{env, io};

// The words of the command line. One that is no UTF-8 text makes them none of the forms, as no words do.
fn words(rt: &HostRuntime) -> Result<Vec<String>, Fault> {
    match env::args(rt) {
        Ok(words) => words.skip(1).collect(rt.alloc()).map_err(|_| Fault::Memory),
        Err(error) if error.kind() == io::ErrorKind::OutOfMemory => Err(Fault::Memory),
        Err(_) => Ok(Vec::new(rt.alloc())),
    }
}

// A file of a path that was opened, or why it wasn't.
fn opened(path: &'static str, file: io::Result<File>) -> Result<File, Fault> {
    match file {
        Ok(file) => Ok(file),
        Err(error) if error.kind() == io::ErrorKind::OutOfMemory => Err(Fault::Memory),
        Err(_) => Err(Fault::NotOpened { path }),
    }
}

// A file that is written to at its end, and made where there is none.
fn appended(rt: &HostRuntime, path: &'static str) -> Result<File, Fault> {
    opened(
        path,
        OpenOptions::new().append(true).create(true).open(rt, path),
    )
}

// A file that is made anew.
fn made_anew(rt: &HostRuntime, path: &'static str) -> Result<File, Fault> {
    opened(path, File::create(rt, path))
}

// The file of the log: `journal.log`, made anew, where the words begin with `record`, else `denial.log`.
fn log_file(rt: &HostRuntime, words: &[String]) -> Result<File, Fault> {
    match words.first() {
        Some(word) if word.as_str() == "record" => made_anew(rt, "journal.log"),
        _ => appended(rt, "denial.log"),
    }
}

// Opens the outside in its order, whatever the words are, and serves.
fn run(rt: &HostRuntime) -> Result<Ended, Fault> {
    let alloc = rt.alloc();
    let words = words(rt)?;
    let mut trace = StdSource::new(rt.stdin());
    let mut out = StdSink::new(rt.stdout());
    let mut log = StdSink::new(log_file(rt, &words)?);
    let mut mail = StdSink::new(appended(rt, "outbox.txt")?);
    let mut files = Folder::new(alloc, rt.clone()?, "site")?;
    let mut tables = SqliteTables::open(rt, "resin.db")?;
    let ended = serve(
        alloc,
        &words,
        &mut trace,
        &mut out,
        &mut log,
        &mut mail,
        &mut files,
        &mut tables,
    );
    tell(rt, tables.last_fault());
    Ok(ended)
}

// Says why calls on the tables failed, where some did.
fn tell(rt: &HostRuntime, fault: Option<DatabaseFault>) {
    if let Some(fault) = fault {
        let _ = eprintln!(rt; "resin.db: {fault}");
    }
}

fn main(rt: HostRuntime) -> ExitCode {
    let fault = match run(&rt) {
        Ok(ended) => Fault::of_status(&ended.status),
        Err(fault) => Some(fault),
    };
    match fault {
        None => ExitCode::SUCCESS,
        Some(fault) => {
            let _ = eprintln!(rt; "{fault}");
            ExitCode::from(fault.code())
        }
    }
}
