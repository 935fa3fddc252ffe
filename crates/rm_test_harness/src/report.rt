//! The line that tells of a test.
use crate::fault::Fault;
use crate::table::{Told, cases};
use std::{fs, io};

/// Tells whether what the test of this name tries is so.
pub fn tell<E>(rt: &HostRuntime, name: &str, outcome: Result<bool, E>) -> io::Result<()>
where
    Fault: From<E>,
{
    match outcome {
        Ok(true) => println!(rt; "{name}: ok"),
        Ok(false) => println!(rt; "{name}: not so"),
        Err(fault) => tell_fault(rt, name, Fault::from(fault)),
    }
}

fn tell_fault(rt: &HostRuntime, name: &str, fault: Fault) -> io::Result<()> {
    match fault {
        Fault::Differs(what) => println!(rt; "{name}: {what}"),
        Fault::NoMemory => println!(rt; "{name}: no memory"),
    }
}

/// Tells how many cases there are, each as its table says, or the first that is not so.
pub fn tell_cases(rt: &HostRuntime, name: &str, outcome: Result<u64, Fault>) -> io::Result<()> {
    match outcome {
        Ok(cases) => println!(rt; "{name}: {cases} cases ok"),
        Err(fault) => tell_fault(rt, name, fault),
    }
}

/// Tells so of the table of this name in `data/`.
pub fn tell_table<T: Told + Drop>(rt: &HostRuntime, name: &str, mut told: T) -> io::Result<()> {
    let file = format!(in rt.alloc(); "{name}.txt")?;
    let text = fs::read_to_string(rt, file.as_str())?;
    tell_cases(rt, name, cases(rt.alloc(), text.as_str(), &mut told))
}
