use crate::agreeing::{Verdict, judge};
use crate::cutting::Bits;
use crate::faults::Fault;
use crate::reader::read_script;
use crate::script::Script;
use std::rt::{Env, Files};
use std::{env, fs, io};

/// Both machines have the same results.
const AGREE: u8 = 0;

/// They didn't.
const DISAGREE: u8 = 1;

/// It can't be said.
const FAULT: u8 = 2;

/// Prints the plain machine's replies in place of comparing it with the bus.
const CHOICES: &str = "choices";

/// Cuts at every seventh bit in place of each.
const SEVENTHS: &str = "sevenths";

/// Runs the program, prints what it found, and gives its exit status.
pub(crate) fn run<R: Env + Files + Print + Eprint + AllocGlobal>(rt: &R) -> u8 {
    match done(rt) {
        Ok(status) => status,
        Err(fault) => {
            let _ = rt.eprint(&fault);
            FAULT
        }
    }
}

/// Does what the command line asks for.
fn done<R: Env + Files + Print + AllocGlobal>(rt: &R) -> Result<u8, Fault> {
    let mut words = env::args(rt)?.skip(1);
    let Some(first) = words.next() else {
        return Err(Fault::Usage);
    };
    let second = words.next();
    if words.next().is_some() {
        return Err(Fault::Usage);
    }
    asked(rt, &first, &second)
}

/// Does what one word asks for, or two.
fn asked<R: Files + Print + AllocGlobal>(
    rt: &R,
    first: &str,
    second: &Option<String>,
) -> Result<u8, Fault> {
    match second {
        None => compared(rt, first, Bits::Each),
        Some(file) if first == CHOICES => chosen(rt, file),
        Some(file) if first == SEVENTHS => compared(rt, file, Bits::Sevenths),
        Some(_) => Err(Fault::Usage),
    }
}

/// Compares both machines on the script of a file, if it has a bus, with cuts at these bits.
fn compared<R: Files + Print + AllocGlobal>(rt: &R, file: &str, bits: Bits) -> Result<u8, Fault> {
    let Some(script) = script_of(rt, file)? else {
        return Ok(AGREE);
    };
    let verdict = judge(rt.alloc(), script, bits)?;
    tell(rt, &verdict)?;
    Ok(if verdict.disagreements.is_empty() {
        AGREE
    } else {
        DISAGREE
    })
}

/// Prints the plain machine's replies to the events whose choice a comment says.
fn chosen<R: Files + Print + AllocGlobal>(rt: &R, file: &str) -> Result<u8, Fault> {
    if let Some(script) = script_of(rt, file)? {
        tell_said(rt, &script)?;
    }
    Ok(AGREE)
}

/// The script of a file, if it has a bus.
fn script_of<R: Files + AllocGlobal>(rt: &R, file: &str) -> Result<Option<Script>, Fault> {
    let text = fs::read(rt, file)?;
    read_script(rt.alloc(), &text)
}

/// Prints the replies whose choice was said.
fn tell_said<R: Print>(rt: &R, script: &Script) -> io::Result<()> {
    for (reply, is_said) in script.replies.iter().zip(script.said.as_slice()) {
        if *is_said {
            println!(rt; "{reply:?}")?;
        }
    }
    Ok(())
}

/// Prints what was tried, and each disagreement.
fn tell<R: Print>(rt: &R, verdict: &Verdict) -> io::Result<()> {
    let Verdict {
        events,
        cuts,
        twofold,
        open,
        disagreements,
    } = verdict;
    println!(rt; "{events} events, {cuts} cuts, {twofold} twofold, {open} open")?;
    for disagreement in disagreements {
        println!(rt; "{disagreement:?}")?;
    }
    Ok(())
}
