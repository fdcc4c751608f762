#![tactic(auto)]
//! Makes the flat form of N flips of temporaries under two controls, each of them used once, with its circuit graph, and
//! as `order` also with its ready order. It prints how many steps and vertices there are. `bench/graph.sh` times it.

ghost use Rattle.std.specs.Prelude.{◌≤◌};

use flat_core::End::{Dropped, Output};
use flat_core::Flat;
use std::alloc::{AllocError, Global};
use std::process::ExitCode;
use std::{env, io};
use test_forms::{StepEntry, TableFault, WireEntry, at, flat_of, flip, input, new, on};
use topo_order::order;
use unqomp::graph_of;

// The greatest N: a flat form has at most 100,000 wires, and three are inputs.
const MOST: u32 = 99_997;

// What is to be done: the number of temporaries, and whether their graph is put into its ready order.
#[derive(Drop)]
struct Job {
    temporaries: u32,
    ordered: bool,
}

// The two words of a job: a number, and `graph` or `order`.
fn read_job(rt: &HostRuntime) -> io::Result<Option<Job>> {
    let mut words = env::args(rt)?.skip(1);
    let (Some(number), Some(kind)) = (words.next(), words.next()) else {
        return Ok(None);
    };
    let Ok(temporaries) = number.as_str().parse::<u32>() else {
        return Ok(None);
    };
    let ordered = kind.as_str() == "order";
    Ok(Some(Job {
        temporaries,
        ordered,
    }))
}

// Three inputs, and the temporaries.
fn wires(alloc: Global, temporaries: u32) -> Result<Vec<WireEntry>, AllocError> {
    let mut wires = vec![in alloc; input(Output); 3]?;
    for _ in 0..temporaries {
        wires.push(new(Dropped))?;
    }
    Ok(wires)
}

// Each temporary is the conjunction of the one before and an input, and flips another input.
fn steps(alloc: Global, temporaries: u32) -> Result<Vec<StepEntry>, AllocError>
    requires { temporaries ≤ 100000 }
{
    let mut steps = Vec::new(alloc);
    for i in 0..temporaries {
        let before = if i == 0 { 0 } else { i + 2 };
        steps.push(at(1, flip(i + 3, on(before), on(1))))?;
        steps.push(at(1, flip(2, on(i + 3), None)))?;
    }
    Ok(steps)
}

// The flat form of so many temporaries.
fn form(alloc: Global, temporaries: u32) -> Result<Flat, TableFault> {
    let temporaries = temporaries.min(MOST);
    let wires = wires(alloc, temporaries)?;
    let steps = steps(alloc, temporaries)?;
    flat_of(alloc, &wires, &steps)
}

// Does a job, and gives the numbers of steps and of vertices, or of those in the order.
fn done(alloc: Global, job: &Job) -> Result<(usize, usize), TableFault> {
    let flat = form(alloc, job.temporaries)?;
    let graph = graph_of(alloc, &flat)?;
    if !job.ordered {
        return Ok((flat.steps(), graph.len()));
    }
    match order(alloc, &graph) {
        Ok(ids) => Ok((flat.steps(), ids.len())),
        Err(_) => Err(TableFault::Broken),
    }
}

fn main(rt: HostRuntime) -> io::Result<ExitCode> {
    let Some(job) = read_job(&rt)? else {
        return Ok(ExitCode::from(2));
    };
    match done(rt.alloc(), &job) {
        Ok((steps, vertices)) => println!(rt; "steps {steps} vertices {vertices}")?,
        Err(_) => return Ok(ExitCode::from(1)),
    }
    Ok(ExitCode::from(0))
}
