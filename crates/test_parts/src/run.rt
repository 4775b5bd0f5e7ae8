use crate::calls::answer;
use crate::faults::Fault;
use crate::setting::Setting;
use crate::subject::Subject;
use std::rt::{Env, Files};
use std::{env, fs};

/// The text was read.
const READ: u8 = 0;

/// It wasn't.
const FAULT: u8 = 2;

/// Runs the program, and gives its exit status.
pub(crate) fn run<R: Env + Files + Print + Eprint + AllocGlobal>(rt: &R) -> u8 {
    match done(rt) {
        Ok(()) => READ,
        Err(fault) => {
            let _ = rt.eprint(&fault.text());
            FAULT
        }
    }
}

/// Answers the lines of the file that the command line names.
fn done<R: Env + Files + Print + AllocGlobal>(rt: &R) -> Result<(), Fault> {
    let file = file_named(rt)?;
    let text = fs::read_to_string(rt, file.as_str())?;
    let mut setting = Setting::new(rt.alloc());
    tell_all(rt, &mut setting, text.as_str())
}

/// The one word of the command line behind the program's name.
fn file_named<R: Env + AllocGlobal>(rt: &R) -> Result<String, Fault> {
    let mut words = env::args(rt)?;
    let _name = words.next();
    match (words.next(), words.next()) {
        (Some(file), None) => Ok(file),
        _ => Err(Fault::Usage),
    }
}

/// Prints each line of a text, with its answer. The first line names the crate whose calls the others are.
fn tell_all<R: Print>(rt: &R, setting: &mut Setting, text: &str) -> Result<(), Fault> {
    let mut lines = text.lines();
    let first = lines.next().unwrap_or("");
    let subject = Subject::named(first)?;
    println!(rt; "{first}")?;
    for line in lines {
        tell(rt, setting, subject, line)?;
    }
    Ok(())
}

/// Prints a line, and its answer where there is one.
fn tell<R: Print>(
    rt: &R,
    setting: &mut Setting,
    subject: Subject,
    line: &str,
) -> Result<(), Fault> {
    println!(rt; "{line}")?;
    if !line.is_empty() && !line.starts_with('#') {
        let answer = answer(setting, subject, line)?;
        if !answer.is_empty() {
            println!(rt; "= {answer}")?;
        }
    }
    Ok(())
}
