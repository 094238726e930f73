//! The mail filter over a store: reads a script from standard input, and writes its replies.
#![tactic(auto)]

mod mail_filter;

use command_words::{WordsFault, words_of_line};
use file_session::run_session;
use mail_filter::MailFilter;
use sqlite::Unknown;
use std::marker::Brand;
use std::process::ExitCode;
use std::sync::ledger::Blank;
use tap_edges::{StdSink, StdSource};

fn main(rt: HostRuntime) -> ExitCode {
    let words = match words_of_line(&rt, rt.alloc()) {
        Ok(words) => words,
        Err(WordsFault::NotText) => return ExitCode::from(2),
        Err(WordsFault::Memory) => return ExitCode::from(7),
    };
    let mut source = StdSource::new(rt.stdin());
    let mut sink = StdSink::new(rt.stdout());
    let (status, closed) = run_session::<MailFilter, _, _, _, Brand>(
        &rt,
        &words,
        &mut source,
        &mut sink,
        Unknown,
        Blank::new(1),
    );
    // A close that fails loses no committed row, and changes no status.
    drop(closed);
    ExitCode::from(status)
}
