ghost use Rattle.std.specs.Prelude.{◌≡◌, ◌≤◌, ℕ, List, IfOk, IfErr, OnOk, OnErr, Some};
ghost use Rattle.di_io.specs.Faults.{Rose};
ghost use Rattle.di_io.specs.Written.{Gains, GainsFront};
ghost use Rattle.replay.specs.Probes.{views_of};
ghost use Rattle.di_top.specs.Asked.{meant};
ghost use Rattle.di_top.specs.Requests.{Compile, Check, Count, Rules, Run, Drive};
ghost use Rattle.di_top.specs.Calls.{reading};
ghost use Rattle.di_top.specs.Ends.{Finishes, Halts};
ghost use Rattle.di_top.specs.Plans.{text_of, wording_of};

use crate::check_form::{Counts, plan_check, put_counts};
use crate::compile_form::plan_compile;
use crate::count_form::{Sums, plan_count, put_sums};
use crate::drive_form::{Drawn, plan_drive, put_drawn};
use crate::outcome::Stop;
use crate::rules_form::{Verdict, plan_rules, put_verdict};
use crate::run_form::{Ran, plan_run, put_ran};
use crate::words::Task;
use count_sum::Basis;
use di_io::{PutFault, Shelf, Sink};
use net_core::Net;
use net_text::write_net;
use replay::Probe;
use std::alloc::Global;

/// What is to be printed. It owns all memory that printing needs.
#[derive(Drop)]
pub enum Plan {
    Compile(Net),
    Check(Counts),
    Count(Sums),
    Rules(Verdict),
    Run(Ran),
    Drive(Drawn),
}

/// Does all that a task asks for but its printing, and hands back the probes that watched it. On a failure that is no want
/// of memory, the outcome is the first of the task's order.
pub fn decide<P: Probe, F: Shelf>(
    alloc: Global,
    task: Task,
    shelf: &mut F,
    probes: Vec<P>,
) -> Result<(Plan, Vec<P>), Stop>
    ensures ok { IfOk result (λ done. Finishes (Some (meant (views_of P.rule P.numbers P.steady probes.items) task.entry))
        (reading F.content F.faults shelf.old shelf.new) (text_of done.0) (views_of P.rule P.numbers P.steady done.1.items)) }
    ensures stop { IfErr result (λ stop. Halts (Some (meant (views_of P.rule P.numbers P.steady probes.items) task.entry))
        (reading F.content F.faults shelf.old shelf.new) stop.outcome (wording_of stop)) }
    ensures kept { (other : List ℕ) → F.content shelf.new other ≡ F.content shelf.old other }
    ensures later { (other : List ℕ) → F.faults shelf.old other ≤ F.faults shelf.new other }
{
    match task {
        Task::Compile { basis, file } => decide_compile(alloc, basis, file, shelf),
        Task::Check { file } => decide_check(alloc, file, shelf),
        Task::Count { basis, file } => decide_count(alloc, basis, file, shelf),
        Task::Rules { file } => decide_rules(alloc, file, shelf),
        Task::Run {
            netlist,
            schedule,
            ..
        } => decide_run(alloc, netlist, schedule, shelf, probes),
        Task::Drive {
            netlist,
            seed,
            steps,
        } => decide_drive(alloc, netlist, seed, steps, shelf),
    }
}

fn decide_compile<P: Probe, F: Shelf>(
    alloc: Global,
    basis: Basis,
    file: &str,
    shelf: &mut F,
) -> Result<(Plan, Vec<P>), Stop>
    ensures ok { IfOk result (λ done. Finishes (Some (Compile basis file.now)) (reading F.content F.faults shelf.old shelf.new)
        (text_of done.0) (views_of P.rule P.numbers P.steady done.1.items)) }
    ensures stop { IfErr result (λ stop. Halts (Some (Compile basis file.now)) (reading F.content F.faults shelf.old shelf.new)
        stop.outcome (wording_of stop)) }
    ensures kept { (other : List ℕ) → F.content shelf.new other ≡ F.content shelf.old other }
    ensures later { (other : List ℕ) → F.faults shelf.old other ≤ F.faults shelf.new other }
{
    let plan = plan_compile(alloc, basis, file, shelf)?;
    Ok((plan, Vec::new(alloc)))
}

fn decide_count<P: Probe, F: Shelf>(
    alloc: Global,
    basis: Basis,
    file: &str,
    shelf: &mut F,
) -> Result<(Plan, Vec<P>), Stop>
    ensures ok { IfOk result (λ done. Finishes (Some (Count basis file.now)) (reading F.content F.faults shelf.old shelf.new)
        (text_of done.0) (views_of P.rule P.numbers P.steady done.1.items)) }
    ensures stop { IfErr result (λ stop. Halts (Some (Count basis file.now)) (reading F.content F.faults shelf.old shelf.new)
        stop.outcome (wording_of stop)) }
    ensures kept { (other : List ℕ) → F.content shelf.new other ≡ F.content shelf.old other }
    ensures later { (other : List ℕ) → F.faults shelf.old other ≤ F.faults shelf.new other }
{
    let plan = plan_count(alloc, basis, file, shelf)?;
    Ok((plan, Vec::new(alloc)))
}

fn decide_check<P: Probe, F: Shelf>(
    alloc: Global,
    file: &str,
    shelf: &mut F,
) -> Result<(Plan, Vec<P>), Stop>
    ensures ok { IfOk result (λ done. Finishes (Some (Check file.now)) (reading F.content F.faults shelf.old shelf.new)
        (text_of done.0) (views_of P.rule P.numbers P.steady done.1.items)) }
    ensures stop { IfErr result (λ stop. Halts (Some (Check file.now)) (reading F.content F.faults shelf.old shelf.new)
        stop.outcome (wording_of stop)) }
    ensures kept { (other : List ℕ) → F.content shelf.new other ≡ F.content shelf.old other }
    ensures later { (other : List ℕ) → F.faults shelf.old other ≤ F.faults shelf.new other }
{
    let plan = plan_check(alloc, file, shelf)?;
    Ok((plan, Vec::new(alloc)))
}

fn decide_rules<P: Probe, F: Shelf>(
    alloc: Global,
    file: &str,
    shelf: &mut F,
) -> Result<(Plan, Vec<P>), Stop>
    ensures ok { IfOk result (λ done. Finishes (Some (Rules file.now)) (reading F.content F.faults shelf.old shelf.new)
        (text_of done.0) (views_of P.rule P.numbers P.steady done.1.items)) }
    ensures stop { IfErr result (λ stop. Halts (Some (Rules file.now)) (reading F.content F.faults shelf.old shelf.new)
        stop.outcome (wording_of stop)) }
    ensures kept { (other : List ℕ) → F.content shelf.new other ≡ F.content shelf.old other }
    ensures later { (other : List ℕ) → F.faults shelf.old other ≤ F.faults shelf.new other }
{
    let plan = plan_rules(alloc, file, shelf)?;
    Ok((plan, Vec::new(alloc)))
}

fn decide_run<P: Probe, F: Shelf>(
    alloc: Global,
    netlist: &str,
    schedule: &str,
    shelf: &mut F,
    probes: Vec<P>,
) -> Result<(Plan, Vec<P>), Stop>
    ensures ok { IfOk result (λ done. Finishes (Some (Run netlist.now schedule.now (views_of P.rule P.numbers P.steady probes.items)))
        (reading F.content F.faults shelf.old shelf.new) (text_of done.0) (views_of P.rule P.numbers P.steady done.1.items)) }
    ensures stop { IfErr result (λ stop. Halts (Some (Run netlist.now schedule.now (views_of P.rule P.numbers P.steady probes.items)))
        (reading F.content F.faults shelf.old shelf.new) stop.outcome (wording_of stop)) }
    ensures kept { (other : List ℕ) → F.content shelf.new other ≡ F.content shelf.old other }
    ensures later { (other : List ℕ) → F.faults shelf.old other ≤ F.faults shelf.new other }
{
    let (ran, kept) = plan_run(alloc, netlist, schedule, shelf, probes)?;
    Ok((Plan::Run(ran), kept))
}

fn decide_drive<P: Probe, F: Shelf>(
    alloc: Global,
    netlist: &str,
    seed: u64,
    steps: u64,
    shelf: &mut F,
) -> Result<(Plan, Vec<P>), Stop>
    ensures ok { IfOk result (λ done. Finishes (Some (Drive netlist.now seed steps)) (reading F.content F.faults shelf.old shelf.new)
        (text_of done.0) (views_of P.rule P.numbers P.steady done.1.items)) }
    ensures stop { IfErr result (λ stop. Halts (Some (Drive netlist.now seed steps)) (reading F.content F.faults shelf.old shelf.new)
        stop.outcome (wording_of stop)) }
    ensures kept { (other : List ℕ) → F.content shelf.new other ≡ F.content shelf.old other }
    ensures later { (other : List ℕ) → F.faults shelf.old other ≤ F.faults shelf.new other }
{
    let drawn = plan_drive(alloc, netlist, seed, steps, shelf)?;
    Ok((Plan::Drive(drawn), Vec::new(alloc)))
}

/// Puts the text of a plan. It takes no memory. After an error a front of it was put.
pub fn put_plan<S: Sink>(plan: &Plan, sink: &mut S) -> Result<(), PutFault>
    ensures later { S.faults sink.old ≤ S.faults sink.new }
    ensures ok { OnOk result (Gains (S.written sink.old) (S.written sink.new) (text_of plan.now)) }
    ensures failed { OnErr result (Rose (S.faults sink.old) (S.faults sink.new)) }
    ensures front { OnErr result (GainsFront (S.written sink.old) (S.written sink.new) (text_of plan.now)) }
{
    match plan {
        Plan::Compile(net) => write_net(net, sink),
        Plan::Check(counts) => put_counts(*counts, sink),
        Plan::Count(sums) => put_sums(sums, sink),
        Plan::Rules(verdict) => put_verdict(verdict, sink),
        Plan::Run(ran) => put_ran(ran, sink),
        Plan::Drive(drawn) => put_drawn(drawn, sink),
    }
}
