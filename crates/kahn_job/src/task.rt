//! A task: a job as workers pass it on, with what they have to know of it; and an idle one, whose input may grow.

ghost use Rattle.std.specs.Prelude.{◌≡◌, ◌+◌, ◌*◌, ◌^◌, ◌<◌, ◌≤◌, length, map, slice_set, IfOk};
ghost use Rattle.kahn_job.specs.{inner.Words.OnOk, inner.Words.site_code, inner.Words.count, inner.Words.AreCounts, inner.Words.WantsRoom, inner.Words.site_of, inner.Ends.HasRoom, inner.Berths.HaveFlushed, inner.Berths.IsWithinInput, inner.Berths.end_at, inner.Idles.CanGoOn, inner.Tasks.Continues, inner.Tasks.IsTrueOf, inner.Tasks.standing_after, inner.Tasks.woken_task, inner.Works.HasPaused, inner.Works.IsDelivered, inner.Works.IsJob, inner.Works.width_of, inner.Works.IsSamePlace};
ghost use Rattle.kahn_code.specs.declared.progress.Pause.TheVariants.{NoMemory as IsRefused};

use crate::handing::{Ends, flush_all};
use crate::port::TaskPort;
use kahn_code::{Cell, Code, Kept, Pause, Steps};
use kahn_streams::{Failure, Input, Network, NoMemory};
use std::alloc::Global;
use std::marker::Model;
use std::mem;
use std::sync::ledger::Ledger;

/// Where a process was when it was last run, as far as more runs can't change it.
#[derive(Clone, Copy, Debug, PartialEq, Eq)]
pub enum TaskStanding {
    /// It can run, as far as is known.
    Going,
    /// It has ended.
    Ended,
    /// It has faulted.
    Faulted(Failure),
    /// It waits on this parameter, and has taken all that it found there.
    Dry(usize),
}

/// A cell and the ends of its channels, which go from worker to worker together; where its process was when it was last run; and
/// for each parameter how many of the tokens that it sent are published. Code, network and input are lent to it when it runs.
#[derive(Drop)]
pub struct Task {
    cell: Cell,
    instance: usize,
    ports: Vec<TaskPort>,
    standing: TaskStanding,
    published: Vec<u64>,
}

/// A cell and the ends of its channels between two runs. It doesn't borrow the input, which may grow meanwhile. It keeps a
/// list with a number for each parameter for the next run, so that going on never allocates.
#[derive(Drop)]
pub struct Idle {
    pub(crate) cell: Cell,
    pub(crate) instance: usize,
    pub(crate) ports: Vec<TaskPort>,
    pub(crate) numbers: Vec<u64>,
}

impl TaskStanding {
    /// Returns the standing after a pause.
    pub fn after(pause: Pause) -> TaskStanding
        ensures { result ≡ standing_after pause }
    {
        match pause {
            Pause::Spent | Pause::NoMemory => TaskStanding::Going,
            Pause::Ended => TaskStanding::Ended,
            Pause::Fault(failure) => TaskStanding::Faulted(failure),
            Pause::Dry(parameter) => TaskStanding::Dry(parameter),
        }
    }
}

impl Model for Task {
    ghost use Rattle.kahn_streams.specs.contracts.tree.Action as action;
    ghost use Rattle.kahn_streams.specs.contracts.tree.Form as form;
    ghost use Rattle.std.specs.Coded.{codes};
    ghost use Rattle.kahn_job.specs.inner.Tasks.{IsTask, Tasked};

    ghost Value = { Tasked };

    ghost coded = { Prim.hlevel (codes, action.the_row.coded, form.the_row.coded) };

    ghost view = { λ t. record { work = record { cell = t.cell; ends = t.ports.items }; standing = t.standing; published = t.published.items } };

    ghost invariant = { λ t. IsTask t.instance (record { cell = t.cell; ends = t.ports.items }) t.standing t.published.items };
}

impl Task {
    /// Turns an idle job into a task for an input for which its ends have settled. All that it sent counts as
    /// published. Never allocates.
    pub fn woken(idle: Idle, input: &Input) -> Task
        requires { CanGoOn input.now idle }
        ensures { result ≡ woken_task input.now idle }
    {
        let cell = idle.cell.grown(input);
        let mut published = idle.numbers;
        cell.sized();
        for parameter in 0..published.len() {
            published[parameter] = cell.sent(parameter);
        }
        Task {
            cell,
            instance: idle.instance,
            ports: idle.ports,
            standing: TaskStanding::Going,
            published,
        }
    }

    /// Turns the task back into an idle job. Never allocates.
    pub fn rest(self) -> Idle
        ensures same { result ≡ self.work }
        ensures job { IsJob result }
    {
        Idle {
            cell: self.cell,
            instance: self.instance,
            ports: self.ports,
            numbers: self.published,
        }
    }

    /// Runs for at most `quantum` events, on the network and the input of its process. What it sent may be in open segments until
    /// `flush`.
    /// With a quantum of 0 it only reports what comes next, and never allocates. A task whose process has ended or faulted reports
    /// that again.
    #[tactic(auto, using(crate::proofs::Berthed::advanced, crate::proofs::Trues::ran, crate::proofs::Trues::same_cell, crate::proofs::Trues::same_width, crate::proofs::Trues::true_after))]
    pub fn run<L: Ledger>(
        &mut self,
        code: &Code,
        quantum: u64,
        steps: &mut Steps<L>,
        network: &Network,
        input: &Input,
    ) -> Pause
        requires code { code.now.network.value ≡ self.old.work.cell.network }
        requires lent { (network.now ≡ self.old.work.cell.network) × (input.now ≡ self.old.work.cell.input) }
        requires events { self.old.work.cell.events + quantum < 2 ^ 48 }
        ensures continues { Continues self.old self.new }
        ensures events { (self.old.work.cell.events ≤ self.new.work.cell.events) × (self.new.work.cell.events ≤ self.old.work.cell.events + quantum) }
        ensures paused { HasPaused self.old.work self.new.work quantum result }
        ensures standing { self.new.standing ≡ standing_after result }
        ensures published { self.new.published ≡ self.old.published }
        // If memory was refused, what it would send next has no room.
        ensures refused { result ≡ IsRefused → WantsRoom self.new.work.cell (λ q. HasRoom (end_at self.new.work.ends q)) }
        // How many instructions were executed.
        ensures cost { steps.new ≤ steps.old + (quantum + 1) * length (site_code (site_of self.old.work.cell)) }
    {
        let mut ends = Ends {
            network,
            input,
            instance: self.instance,
            ports: &mut self.ports,
        };
        let pause = self.cell.run(code, quantum, &mut ends, steps);
        self.standing = TaskStanding::after(pause);
        pause
    }

    /// Flushes what was sent on each channel, so that its reader can take it. It stops at the first refusal, which leaves
    /// the tokens where they are.
    pub fn flush(&mut self) -> Result<(), NoMemory>
        ensures continues { Continues self.old self.new }
        ensures cell { self.new.work.cell ≡ self.old.work.cell }
        ensures standing { self.new.standing ≡ self.old.standing }
        ensures published { self.new.published ≡ self.old.published }
        ensures each { HaveFlushed self.old.work.ends self.new.work.ends }
        ensures all { OnOk result (IsDelivered self.new.work) }
    {
        flush_all(&mut self.ports)
    }

    /// Returns where the process was when it was last run.
    pub fn standing(&self) -> TaskStanding
        ensures result { result ≡ self.now.standing }
        ensures said { IsTrueOf self.now.work self.now.standing }
    {
        self.standing
    }

    /// Returns the number of its events.
    pub fn events(&self) -> u64
        ensures { result ≡ self.now.work.cell.events }
    {
        self.cell.events()
    }

    /// Returns how many parameters it has.
    pub fn parameters(&self) -> usize
        ensures width { result ≡ width_of self.now.work }
        ensures lists { (length self.now.published ≡ result) × (length self.now.work.ends ≡ result) }
        ensures job { IsJob self.now.work }
        ensures counts { AreCounts self.now.work.cell }
    {
        self.cell.sized();
        self.published.len()
    }

    /// Returns how many tokens it took on a parameter.
    pub fn taken(&self, parameter: usize) -> u64
        requires { parameter < length self.now.work.cell.taken }
        ensures { result ≡ count self.now.work.cell.taken parameter }
    {
        self.cell.taken(parameter)
    }

    /// Returns how many tokens it sent on a parameter.
    pub fn sent(&self, parameter: usize) -> u64
        requires { parameter < length self.now.work.cell.sent }
        ensures { result ≡ count self.now.work.cell.sent parameter }
    {
        self.cell.sent(parameter)
    }

    /// Returns how many tokens it flushed on a parameter, also after a refusal. Never allocates.
    pub fn flushed(&self, parameter: usize) -> u64
        requires { parameter < length self.now.work.ends }
        ensures { result ≡ (end_at self.now.work.ends parameter).flushed }
    {
        self.ports[parameter].flushed()
    }

    /// Returns how many tokens of a parameter are published.
    pub fn published(&self, parameter: usize) -> u64
        requires { parameter < length self.now.published }
        ensures { result ≡ count self.now.published parameter }
    {
        self.published[parameter]
    }

    /// Marks `number` tokens of a parameter as published.
    pub fn mark(&mut self, parameter: usize, number: u64)
        requires { parameter < length self.old.published }
        ensures { self.new ≡ record { work = self.old.work; standing = self.old.standing; published = slice_set self.old.published parameter number } }
    {
        self.published[parameter] = number;
    }

    /// Says that no more of an input channel is ready on a parameter than its list has. For the prover only.
    pub fn fed(&self, parameter: usize)
        requires { parameter < length self.now.work.ends }
        ensures { IsWithinInput (end_at self.now.work.ends parameter) }
    {
        self.ports[parameter].fed();
    }
}

impl Model for Idle {
    ghost use Rattle.kahn_streams.specs.contracts.tree.Action as action;
    ghost use Rattle.kahn_streams.specs.contracts.tree.Form as form;
    ghost use Rattle.std.specs.Prelude.{◌≡◌};
    ghost use Rattle.kahn_job.specs.inner.Words.{codes, length};
    ghost use Rattle.kahn_job.specs.inner.Works.{Work, width_of};

    ghost Value = { Work };

    ghost coded = { Prim.hlevel (codes, action.the_row.coded, form.the_row.coded) };

    ghost view = { λ j. record { cell = j.cell; ends = j.ports.items } };

    ghost invariant = { λ j. (j.instance ≡ j.cell.instance) × (length j.numbers.items ≡ width_of (record { cell = j.cell; ends = j.ports.items })) };
}

impl Idle {
    pub(crate) fn replace(&mut self, parameter: usize, port: TaskPort) -> TaskPort
        requires { parameter < length self.old.ends }
        ensures port { result ≡ end_at self.old.ends parameter }
        ensures rest { self.new ≡ record self.old { ends = slice_set self.old.ends parameter port } }
    {
        mem::replace(&mut self.ports[parameter], port)
    }

    pub(crate) fn seat(&mut self, cell: Cell)
        requires { IsSamePlace self.old.cell cell }
        ensures { self.new ≡ record self.old { cell = cell } }
    {
        self.cell = cell;
    }

    /// Copies what its cell kept. Fails only if memory was refused.
    pub fn lists(&self, alloc: Global) -> Result<Kept, NoMemory>
        ensures kept { IfOk result (λ k. map (λ v. v.items) k.kept.items ≡ self.now.cell.kept) }
        ensures printed { IfOk result (λ k. k.printed.items ≡ self.now.cell.printed) }
        ensures parameters { IfOk result (λ k. length k.kept.items ≡ width_of self.now) }
    {
        let parameters = self.cell.parameters();
        let mut kept = Vec::with_capacity(alloc, parameters)?;
        for parameter in 0..parameters {
            kept.push_reserved(self.cell.kept(parameter).copied(alloc)?);
        }
        let printed = self.cell.printed().copied(alloc)?;
        Ok(Kept { kept, printed })
    }

    /// Turns the job into what its cell kept. Never allocates.
    pub fn into_lists(self) -> Kept
        ensures kept { map (λ v. v.items) result.kept.items ≡ self.cell.kept }
        ensures printed { result.printed.items ≡ self.cell.printed }
        ensures parameters { length result.kept.items ≡ width_of self }
    {
        self.cell.into_lists()
    }
}
