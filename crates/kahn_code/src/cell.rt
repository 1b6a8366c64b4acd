//! A cell: one process of a network on its way.

ghost use Rattle.std.specs.Prelude.{◌≡◌, ◌+◌, ◌^◌, ◌<◌, length, [], map, slice_index_or, IfOk, ℕ, ◌++◌, slice_get, Some, replicate};
ghost use Rattle.kahn_code.specs.{Common.network_of, Common.instance_at, Common.Lists, Common.inputs_of, Common.AreInputsExtended, Common.action_row, Common.form_row, Common.codes, inner.Gone.nothing_gone, Standing.Serve, Progress.AreCounts, Progress.AreUnused, Progress.site_of, Progress.HasRunFor, Progress.IsAt, Progress.CellView, Common.Names, Cells.StoodBy, inner.Gone.kept_behind, Standing.tokens, Progress.told_view, Progress.IsStanding, inner.Tapped.HasForgotten, inner.Tapped.Tapped, inner.Tapped.regrown_tap, inner.Tapped.tapped_of, inner.Gone.Gone, Flat.registers_of};

use crate::code::{Code, CodeFault};
use crate::form::{InstanceArguments, ProcessCode};
use crate::machine::Past;
use crate::plain::{Plain, Ports};
use crate::progress::{Called, Pause, Progress};
use kahn_streams::{About, Input, Network, NoMemory, Steps, Tokens, Word};
use std::alloc::{Allocator, Global};
use std::marker::Model;
use std::sync::ledger::Ledger;

/// For how many items more than it has a list of an instance has room, 64 bytes at least. So no two instances write to one line of a
/// processor's cache: by several workers each event would wait for it otherwise.
const APART: usize = 8;

/// One process of a network on its way. It keeps what it sends on output channels, on the channel that is watched and
/// on its print stream. Contracts see its network and its input, its instance, its events, and by parameter how many
/// tokens it took and sent and the tokens that it keeps.
#[derive(Drop)]
pub struct Cell<A: Allocator + Copy + Drop = Global> {
    pub(crate) tap: Tap<A>,
}

/// What a cell kept: of each parameter what it sent there, where it is kept, and what it printed, in place order.
#[derive(Drop)]
pub struct Kept<A: Allocator + Drop = Global> {
    pub kept: Vec<Tokens<A>, A>,
    pub printed: Tokens<A>,
}

/// One process of a network on its way, which lets go of the tokens that it kept when it is told to. Contracts see it as a
/// cell that keeps all of them, and which of them are gone.
#[derive(Drop)]
pub struct Tap<A: Allocator + Copy + Drop = Global> {
    progress: Progress<A>,
    network: About<Network>,
    input: About<Input>,
}

impl<A: Allocator + Copy + Drop> Model for Cell<A> {
    ghost Value = { CellView };

    ghost coded = { Prim.hlevel (codes, action_row.coded, form_row.coded) };

    ghost view = { λ c. c.tap.told };

    ghost invariant = { λ c. c.tap.gone ≡ nothing_gone };
}

impl<A: Allocator + Copy + Drop> Cell<A> {
    /// A cell at the opening of its process. Its network is that of the code; the caller names its input for contracts
    /// alone. Fails only if memory was refused.
    pub fn new(
        alloc: A,
        code: &Code<A>,
        instance: usize,
        watch: Option<usize>,
    ) -> Result<Cell<A>, CodeFault>
        ghost input: { Lists }
        requires { instance < length (network_of code.now.network.value).instances }
        ensures names { IfOk result (λ c. (c.network ≡ code.now.network.value) × (c.input ≡ input) × (c.instance ≡ instance) × (c.watch ≡ watch)) }
        ensures none { IfOk result (λ c. (c.events ≡ 0) × (c.printed ≡ [])) }
        ensures parameters { IfOk result (λ c. AreUnused (length (instance_at (network_of code.now.network.value) instance).actuals) c) }
    {
        Ok(Cell {
            tap: Tap::new(alloc, code, instance, watch)?,
        })
    }

    /// Runs for at most so many events. With a quantum of 0 it only says what comes next, and never allocates. A cell
    /// that has ended or faulted says so again.
    #[inline(never)]
    pub fn run<P: Ports, L: Ledger>(
        &mut self,
        code: &Code<A>,
        quantum: u64,
        ports: &mut P,
        steps: &mut Steps<L>,
    ) -> Pause
        requires code { code.now.network.value ≡ self.old.network }
        requires ports { P.site ports.old ≡ site_of self.old }
        requires at { IsAt self.old (P.next ports.old) }
        requires events { self.old.events + quantum < 2 ^ 48 }
        ensures served { Serve P.site P.others P.which P.delivered ports.old ports.new }
        ensures ran { HasRunFor P.site P.next P.is_dry P.is_ready P.has_room quantum result ports.old ports.new steps.old steps.new self.old self.new }
    {
        self.tap
            .run::<P, L, Called>(code, false, quantum, ports, steps)
    }

    /// The number of its events.
    pub fn events(&self) -> u64
        ensures { result ≡ self.now.events }
    {
        self.tap.events()
    }

    /// The number of parameters of its process.
    pub fn parameters(&self) -> usize
        ensures number { result ≡ length (instance_at (network_of self.now.network) self.now.instance).actuals }
        ensures lists { (result ≡ length self.now.taken) × (result ≡ length self.now.sent) × (result ≡ length self.now.kept) }
    {
        self.tap.parameters()
    }

    /// How many tokens it took on a parameter.
    pub fn taken(&self, parameter: usize) -> u64
        requires { parameter < length self.now.taken }
        ensures { result ≡ slice_index_or self.now.taken parameter 0 }
    {
        self.tap.progress.taken[parameter]
    }

    /// How many tokens it sent on a parameter.
    pub fn sent(&self, parameter: usize) -> u64
        requires { parameter < length self.now.sent }
        ensures { result ≡ slice_index_or self.now.sent parameter 0 }
    {
        self.tap.sent(parameter)
    }

    /// Says that its counts are those of its parameters, that none is greater than its events, and that it keeps nothing of
    /// what it needn't. For the prover only.
    pub fn sized(&self)
        ensures { AreCounts self.now }
    {
        self.tap.sized();
    }

    /// The tokens that it keeps of what it sent on a parameter.
    pub fn kept(&self, parameter: usize) -> &Tokens<A>
        requires { parameter < length self.now.kept }
        ensures { result.now.items ≡ slice_index_or self.now.kept parameter [] }
    {
        self.tap.fresh(parameter)
    }

    /// The same cell for an input whose lists begin with those of its own. Never allocates.
    pub fn grown(self, input: &Input) -> Cell<A>
        requires { AreInputsExtended (inputs_of self.input) (inputs_of input.now) }
        ensures { result ≡ record self { input = input.now } }
    {
        Cell {
            tap: regrown(self.tap, input),
        }
    }

    /// What it kept, without the cell. Never allocates.
    pub fn into_lists(self) -> Kept<A>
        ensures kept { map (λ v. v.items) result.kept.items ≡ self.kept }
        ensures printed { result.printed.items ≡ self.printed }
        ensures parameters { length result.kept.items ≡ length (instance_at (network_of self.network) self.instance).actuals }
    {
        self.tap.into_lists()
    }

    /// The tokens of its print stream.
    pub fn printed(&self) -> &Tokens<A>
        ensures { result.now.items ≡ self.now.printed }
    {
        self.tap.fresh_prints()
    }
}

fn regrown<A: Allocator + Copy + Drop>(tap: Tap<A>, _input: &Input) -> Tap<A>
    ghost input: { Lists }
    requires { AreInputsExtended (inputs_of tap.told.input) (inputs_of input) }
    ensures { result ≡ record tap { told = record tap.told { input = input } } }
{
    let mut tap = tap;
    tap.regrow();
    tap
}

impl<A: Allocator + Copy + Drop> Model for Tap<A> {
    ghost Value = { Tapped };

    ghost coded = { Prim.hlevel (codes, action_row.coded, form_row.coded) };

    ghost view = { λ c. tapped_of c.progress c.network.value c.input.value };

    ghost invariant = { λ c. IsStanding c.progress c.network.value c.input.value };
}

impl<A: Allocator + Copy + Drop> Tap<A> {
    /// A tap at the opening of its process. Its network is that of the code; the caller names its input for contracts
    /// alone. Fails only if memory was refused.
    pub fn new(
        alloc: A,
        code: &Code<A>,
        instance: usize,
        watch: Option<usize>,
    ) -> Result<Tap<A>, CodeFault>
        ghost input: { Lists }
        requires { instance < length (network_of code.now.network.value).instances }
        ensures names { IfOk result (λ c. (c.told.network ≡ code.now.network.value) × (c.told.input ≡ input) × (c.told.instance ≡ instance) × (c.told.watch ≡ watch)) }
        ensures none { IfOk result (λ c. (c.told.events ≡ 0) × (c.told.printed ≡ []) × (c.gone ≡ nothing_gone)) }
        ensures parameters { IfOk result (λ c. AreUnused (length (instance_at (network_of code.now.network.value) instance).actuals) c.told) }
    {
        let process_code = code.process_code(instance);
        let arguments = code.arguments(instance);
        let progress = Progress::new(alloc, process_code, arguments, instance, watch)?;
        Ok(assembled(progress, code))
    }

    /// The cell of a tap that has let go of nothing. Never allocates.
    pub fn into_cell(self) -> Cell<A>
        requires { self.gone ≡ nothing_gone }
        ensures { result ≡ self.told }
    {
        Cell { tap: self }
    }

    /// The tap of a cell, which has let go of nothing. Never allocates.
    pub fn of(cell: Cell<A>) -> Tap<A>
        ensures { (result.told ≡ cell) × (result.gone ≡ nothing_gone) }
    {
        cell.tap
    }

    /// Runs for at most so many events. With a quantum of 0 it only says what comes next, and never allocates. A tap whose process has ended or
    /// faulted says so again. `M` names the loop of instructions; `far` says whether turns of a source may come before it.
    #[inline(always)]
    pub fn run<P: Ports, L: Ledger, M>(
        &mut self,
        code: &Code<A>,
        far: bool,
        quantum: u64,
        ports: &mut P,
        steps: &mut Steps<L>,
    ) -> Pause
        requires code { code.now.network.value ≡ self.old.told.network }
        requires ports { P.site ports.old ≡ site_of self.old.told }
        requires at { IsAt self.old.told (P.next ports.old) }
        requires events { self.old.told.events + quantum < 2 ^ 48 }
        ensures gone { self.new.gone ≡ self.old.gone }
        ensures served { Serve P.site P.others P.which P.delivered ports.old ports.new }
        ensures ran { HasRunFor P.site P.next P.is_dry P.is_ready P.has_room quantum result ports.old ports.new steps.old steps.new self.old.told self.new.told }
    {
        let made = code.process_code(self.progress.instance);
        let arguments = code.arguments(self.progress.instance);
        self.progress
            .run::<P, L, M>(&made.instructions, arguments, far, quantum, ports, steps)
    }

    /// Whether turns of a source may come first in its next run.
    pub fn may_feed(&self, code: &Code<A>) -> bool {
        code.may_feed(self.progress.instance, self.progress.place)
    }

    /// The number of its events.
    pub fn events(&self) -> u64
        ensures { result ≡ self.now.told.events }
    {
        self.progress.events
    }

    /// The number of parameters of its process.
    pub fn parameters(&self) -> usize
        ensures number { result ≡ length (instance_at (network_of self.now.told.network) self.now.told.instance).actuals }
        ensures lists { (result ≡ length self.now.told.taken) × (result ≡ length self.now.told.sent) × (result ≡ length self.now.told.kept) }
    {
        self.progress.taken.len()
    }

    /// How many tokens it sent on a parameter.
    pub fn sent(&self, parameter: usize) -> u64
        requires { parameter < length self.now.told.sent }
        ensures { result ≡ slice_index_or self.now.told.sent parameter 0 }
    {
        self.progress.sent_at(parameter)
    }

    /// Says that its counts are those of its parameters, that none is greater than its events, and that it keeps nothing of
    /// what it needn't. For the prover only.
    pub fn sized(&self)
        ensures { AreCounts self.now.told }
    {
        let _events = self.progress.events;
    }

    /// Says where its process stands: on the values that it took it does its events. For the prover only.
    pub fn stood(&self, network: &Network)
        requires { self.now.told.network ≡ network.now }
        ensures { StoodBy (network_of network.now) (inputs_of self.now.told.input) self.now.told.watch self.now.told.instance (told_view self.now.told) }
    {
        let _program = network.program();
        let _events = self.progress.events;
    }

    /// What it kept since it last let go, without the tap. Never allocates.
    pub fn into_lists(self) -> Kept<A>
        ensures kept { kept_behind self.gone.kept (map (λ v. v.items) result.kept.items) ≡ self.told.kept }
        ensures printed { self.gone.printed ++ result.printed.items ≡ self.told.printed }
        ensures parameters { length result.kept.items ≡ length (instance_at (network_of self.told.network) self.told.instance).actuals }
    {
        Kept {
            kept: self.progress.kept,
            printed: self.progress.printed,
        }
    }

    /// The tokens that it sent on a parameter, where they are kept, since it last let go.
    pub fn fresh(&self, parameter: usize) -> &Tokens<A>
        requires { parameter < length self.now.told.kept }
        ensures { tokens self.now.told.kept parameter ≡ tokens self.now.gone.kept parameter ++ result.now.items }
    {
        &self.progress.kept[parameter]
    }

    /// The tokens that it printed since it last let go.
    pub fn fresh_prints(&self) -> &Tokens<A>
        ensures { self.now.told.printed ≡ self.now.gone.printed ++ result.now.items }
    {
        &self.progress.printed
    }

    /// Lets go of the tokens that it keeps. Never allocates.
    pub fn forget(&mut self)
        ensures { HasForgotten self.old self.new }
    {
        self.progress.forget();
    }

    /// Goes on for an input whose lists begin with those of its own. Never allocates.
    pub fn regrow(&mut self)
        ghost input: { Lists }
        requires { AreInputsExtended (inputs_of self.old.told.input) (inputs_of input) }
        ensures { self.new ≡ record self.old { told = record self.old.told { input = input } } }
    {
        self.input = About::named();
    }
}

fn assembled<A: Allocator + Copy + Drop>(progress: Progress<A>, _code: &Code<A>) -> Tap<A>
    ghost names: { Names }
    requires { IsStanding progress names.network names.input }
    ensures { result ≡ tapped_of progress names.network names.input }
{
    Tap {
        progress,
        network: About::named(),
        input: About::named(),
    }
}

fn regrow_all<A: Allocator + Copy + Drop>(taps: &mut Vec<Tap<A>, A>, _queues: &Plain<A>)
    ghost input: { Lists }
    requires { (p : ℕ) (x : Tapped) → slice_get taps.old.items p ≡ Some x → AreInputsExtended (inputs_of x.told.input) (inputs_of input) }
    ensures { taps.new.items ≡ map (regrown_tap input) taps.old.items }
{
    for number in 0..taps.len() {
        taps[number].regrow();
    }
}

/// All taps go on for the input of the queues, whose lists begin with those of their own. Never allocates.
pub fn regrow_taps<A: Allocator + Copy + Drop>(taps: &mut Vec<Tap<A>, A>, queues: &Plain<A>)
    requires { (p : ℕ) (x : Tapped) → slice_get taps.old.items p ≡ Some x → AreInputsExtended (inputs_of x.told.input) (inputs_of queues.now.input) }
    ensures { taps.new.items ≡ map (regrown_tap queues.now.input) taps.old.items }
{
    regrow_all(taps, queues);
}

pub(crate) fn named_gone<A: Allocator + Drop>(_progress: &Progress<A>) -> About<Past>
    ghost gone: { Gone }
    ensures { result.value ≡ gone }
{
    About::named()
}

#[tactic(auto, using(crate::proofs::Behind::one_empty))]
pub(crate) fn clear_lists<A: Allocator + Drop>(lists: &mut Vec<Tokens<A>, A>)
    ensures { map (λ v. v.items) lists.new.items ≡ replicate (length lists.old.items) [] }
{
    for list in lists.iter_mut() {
        list.clear();
    }
}

pub(crate) fn empty_lists<A: Allocator + Copy + Drop>(
    alloc: A,
    number: usize,
) -> Result<Vec<Tokens<A>, A>, NoMemory>
    ensures { IfOk result (λ l. map (λ v. v.items) l.items ≡ replicate number []) }
{
    let mut lists = Vec::new(alloc);
    for _ in 0..number {
        lists.push(Tokens::new(alloc))?;
    }
    lists.reserve(APART)?;
    Ok(lists)
}

pub(crate) fn zeros<A: Allocator + Drop>(alloc: A, number: usize) -> Result<Vec<u64, A>, NoMemory>
    ensures { IfOk result (λ v. v.items ≡ replicate number 0) }
{
    let mut counts = vec![in alloc; 0; number]?;
    counts.reserve(APART)?;
    Ok(counts)
}

/// The registers at the opening: those for parts, and those of the parameters and the variables.
pub(crate) fn first_registers<A: Allocator + Drop>(
    alloc: A,
    process_code: &ProcessCode<A>,
    arguments: &InstanceArguments<A>,
) -> Result<Vec<Word, A>, NoMemory>
    ensures { IfOk result (λ v. v.items ≡ registers_of process_code.now.parts (arguments.now.handed.items ++ process_code.now.defaults.items)) }
{
    let mut registers = vec![in alloc; Word::integer(0); process_code.parts]?;
    registers.extend_from_slice(&arguments.handed)?;
    registers.extend_from_slice(&process_code.defaults)?;
    registers.reserve(APART)?;
    Ok(registers)
}
