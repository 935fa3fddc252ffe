//! Tests of the planner, of the evidence that it goes by and of the drill's script, each of which prints a line. The
//! worked rows are files of `data/`, of which each line is a case or says what is there.
#![tactic(auto)]

mod asked;
mod both;
mod branches;
mod database;
mod draws;
mod drill;
mod gathering;
mod histories;
mod made;
mod objects;
mod plans;
mod single;
mod slow;
mod switched;
mod threads;
mod whole;

use rm_test_harness::{Fault, tell, tell_table};
use std::io;

fn tell_records(rt: &HostRuntime) -> io::Result<()> {
    let alloc = rt.alloc();
    tell::<Fault>(rt, "names have the id", Ok(single::names(alloc)))?;
    tell(rt, "a log is an object", single::a_log(alloc))?;
    tell(rt, "a piece is an object", single::a_piece(alloc))?;
    tell(rt, "a database", database::told(alloc))?;
    tell(rt, "no database", database::none(alloc))
}

fn tell_evidence(rt: &HostRuntime) -> io::Result<()> {
    let alloc = rt.alloc();
    tell_table(rt, "objects", objects::Objects)?;
    tell(
        rt,
        "each artefact among those of its kind",
        whole::by_kind(alloc),
    )?;
    tell(rt, "what does not fit", whole::unfit(alloc))?;
    tell(rt, "each get fails", whole::each_get(alloc))
}

fn tell_histories(rt: &HostRuntime) -> io::Result<()> {
    let alloc = rt.alloc();
    tell(
        rt,
        "both histories agree with the log",
        histories::both(alloc),
    )?;
    tell(
        rt,
        "another state in each history",
        histories::states(alloc),
    )
}

fn main(rt: HostRuntime) -> io::Result<()> {
    let alloc = rt.alloc();
    tell_table(&rt, "plans", plans::Plans::new(alloc))?;
    tell_records(&rt)?;
    tell_evidence(&rt)?;
    tell_histories(&rt)?;
    tell(
        &rt,
        "both planners over 200 databases",
        both::planners(alloc),
    )?;
    tell(&rt, "drill 7", drill::drill_7(alloc))
}
