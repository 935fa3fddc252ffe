//! Prints the text of each kind of reply line, how the cases of the tables in `data/` come out, and a line for each part of
//! the notation.
#![tactic(auto)]

mod commands;
mod moments;
mod notation;
mod replies;
mod statements;
mod table;
mod words;

ghost use Rattle.std.specs.Prelude.{IfSome};
ghost use Rattle.rm_report.specs.Reply.{LineHasDate};

use replies::{
    MOST, changing, limits, listing, names, records, recovering, refusals, text_of, upkeep,
};
use rm_base::NoMemory;
use rm_lang_grammar::Unread;
use rm_report::Line;
use rm_test_harness::{Fault, tell, tell_table};
use std::io;
use table::Table;

// Prints the reply of the line, if there is one.
fn print(rt: &HostRuntime, line: Option<Line>) -> io::Result<()>
    requires { IfSome line LineHasDate }
{
    let Some(line) = line else {
        return Ok(());
    };
    match text_of(rt.alloc(), line) {
        Ok(text) => match str::from_utf8(text.as_slice()) {
            Ok(text) => print!(rt; "{text}")?,
            Err(_) => println!(rt; "no text")?,
        },
        Err(NoMemory) => println!(rt; "no memory")?,
    }
    Ok(())
}

fn print_replies(rt: &HostRuntime) -> io::Result<()> {
    for number in 0..MOST {
        print(rt, changing(number))?;
    }
    for number in 0..MOST {
        print(rt, recovering(number))?;
    }
    for number in 0..MOST {
        print(rt, listing(number))?;
    }
    for number in 0..MOST {
        print(rt, upkeep(number))?;
    }
    Ok(())
}

fn print_refusals(rt: &HostRuntime) -> io::Result<()> {
    for number in 0..MOST {
        print(rt, refusals(number))?;
    }
    for number in 0..MOST {
        print(rt, limits(number))?;
    }
    Ok(())
}

fn print_named(rt: &HostRuntime) -> io::Result<()> {
    for number in 0..MOST {
        match (records(rt.alloc(), number), names(rt.alloc(), number)) {
            (Ok(record), Ok(refusal)) => {
                print(rt, record)?;
                print(rt, refusal)?;
            }
            _ => println!(rt; "no memory")?,
        }
    }
    Ok(())
}

fn tell_tables(rt: &HostRuntime) -> io::Result<()> {
    tell_table(rt, "times", Table::Times)?;
    tell_table(rt, "moments", Table::Moments)?;
    tell_table(rt, "marks", Table::Marks)?;
    tell_table(rt, "statements", Table::Statements)?;
    tell_table(rt, "refused", Table::Refused)?;
    tell_table(rt, "words", Table::Words)?;
    tell_table(rt, "duplicate", Table::Duplicate)?;
    tell_table(rt, "standby", Table::Standby)?;
    tell_table(rt, "resync", Table::Resync)
}

// What can't be read is not so.
fn is_so(outcome: Result<bool, Unread>) -> Result<bool, NoMemory> {
    match outcome {
        Ok(is_so) => Ok(is_so),
        Err(Unread::Other) => Ok(false),
        Err(Unread::NoMemory) => Err(NoMemory),
    }
}

fn tell_notation(rt: &HostRuntime) -> io::Result<()> {
    let alloc = rt.alloc();
    let numbers = notation::single_numbers(alloc);
    let lists = notation::texts_and_lists(alloc);
    tell(rt, "words and signs", is_so(notation::words(alloc)))?;
    tell(rt, "single numbers", is_so(numbers))?;
    tell(rt, "texts and lists", is_so(lists))?;
    tell(rt, "other words", is_so(notation::other_words(alloc)))?;
    tell(rt, "a spelling", notation::a_spelling(alloc))?;
    tell::<Fault>(rt, "tags", Ok(notation::tags()))
}

fn tell_commands(rt: &HostRuntime) -> io::Result<()> {
    tell::<Fault>(rt, "no statement", Ok(commands::none()))?;
    tell_table(rt, "backups", commands::Backups)
}

fn main(rt: HostRuntime) -> io::Result<()> {
    print_replies(&rt)?;
    print_refusals(&rt)?;
    print_named(&rt)?;
    tell_tables(&rt)?;
    tell_notation(&rt)?;
    tell_commands(&rt)
}
