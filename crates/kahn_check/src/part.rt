//! The walk over a program: the first fault of each part, which is a declared name, a body, an instance, or the sides of a channel.

ghost use Rattle.std.specs.Prelude.{◌≡◌, ◌++◌, ◌∷◌, [], IfOk, IfSome, MatchResult, OnOk, List, Some, length, slice_get};
ghost use Rattle.std.specs.Map.{lookup};
ghost use Rattle.std.proofs.Common.{bytes_eq};
ghost use Rattle.kahn_streams.specs.{View.bytes_of, Wiring.IsWellWired, Wiring.handed, Wiring.handed_in, Wiring.is_closed, declared.tree.Declaration.Declaration, Faults.IsMet, Faults.faults, Faults.overtaken, Faults.process_faults, Faults.repeated};
ghost use Rattle.kahn_check.specs.{Parts.faults_by_part, Parts.unless_empty, inner.Globals.ArePlaced, inner.Globals.IsPlaced, inner.Globals.known, inner.Globals.option_global, inner.Tables.HaveGot, inner.Tables.handed_to, inner.Tables.held, inner.Tables.meant, inner.Tables.misplaced_in, inner.Tables.place_faults, inner.Tables.places_faults, inner.Tables.seat_faults, inner.Tables.side_in, inner.Wires.HasWired};
ghost use Rattle.kahn_check.specs.inner.Firsts.{HasAddedFirst, HasTold, HaveNumbers, IsWalkOf, fault_alone, first_fault, first_then, made_of};

use crate::expression::agree;
use crate::names::{ChannelSides, Entry, Globals};
use crate::statement::check_process;
use kahn_streams::Direction::{In, Out};
use kahn_streams::{
    Argument, CheckFault, Declaration, Direction, Instance, Kind, Name, Network, NoMemory,
    Parameter, Process, Program, Role, Side, Span, Taking, Wire, kept,
};
use std::alloc::Global;
use std::hash::RandomState;

/// The most channels of a program.
const MOST_CHANNELS: usize = 1024;

/// The most instances of a program.
const MOST_INSTANCES: usize = 256;

/// What is wrong with a program, and its tables.
#[derive(Drop)]
struct CheckWalk {
    /// The first fault of each part.
    faults: Vec<CheckFault>,
    /// The declared channels, each with its first writer and its first reader.
    wires: Vec<(String, Wire)>,
    /// Where the processes of the instances are declared.
    processes: Vec<usize>,
}

/// Adds a fault, if there is one.
fn add(faults: &mut Vec<CheckFault>, found: Option<CheckFault>) -> Result<(), NoMemory>
    ensures { IfOk result (λ u. faults.new.items ≡ faults.old.items ++ fault_alone found) }
{
    if let Some(fault) = found {
        faults.push(fault)?;
    }
    Ok(())
}

/// Returns what a name of a program stands for, if anything.
#[tactic(auto, using(crate::proofs::Global_names::find_global))]
fn meaning<'p>(globals: &Globals<'p>, name: &Name) -> Option<Entry<'p>>
    ensures known { lookup (bytes_eq (bytes_of name.now)) (known globals.now) ≡ option_global result }
    ensures placed { (ds : List Declaration) → ArePlaced ds globals.now → IfSome result (IsPlaced ds) }
{
    globals.find(name)
}

/// Returns the fault of a name that is declared already.
#[tactic(auto, using(crate::proofs::Global_names::find_global))]
fn twice(globals: &Globals, name: &Name) -> Option<CheckFault>
    ensures { result ≡ first_fault (repeated (lookup (bytes_eq (bytes_of name.now)) (known globals.now)) name.now.span) }
{
    match globals.find(name) {
        None => None,
        Some(_) => Some(CheckFault::DeclaredTwice(name.span)),
    }
}

#[tactic(auto, using(crate::proofs::Told::body_right, crate::proofs::Told::body_wrong))]
fn add_body(
    alloc: Global,
    seed: RandomState,
    faults: &mut Vec<CheckFault>,
    process: &Process,
) -> Result<(), NoMemory>
    ensures { IfOk result (λ u. HasAddedFirst (process_faults process.now) faults.old.items faults.new.items) }
{
    match check_process(alloc, seed, process) {
        Ok(()) => Ok(()),
        Err(CheckFault::NoMemory) => Err(NoMemory),
        Err(fault) => add(faults, Some(fault)),
    }
}

/// Adds the faults of declaration `number`, where `room` channels more may be declared. Returns how many may be then.
#[tactic(auto, using(crate::proofs::Told::names_begin, crate::proofs::Told::channels_told, crate::proofs::Told::process_told))]
fn add_declaration<'p>(
    alloc: Global,
    seed: RandomState,
    globals: &mut Globals<'p>,
    faults: &mut Vec<CheckFault>,
    room: usize,
    number: usize,
    declaration: &'p Declaration,
) -> Result<usize, NoMemory>
    ensures told { IfOk result (λ left. HasTold declaration.now (known globals.old) room faults.old.items (known globals.new) left faults.new.items) }
    ensures placed { OnOk result ((ds : List Declaration) → ArePlaced ds globals.old → slice_get ds number ≡ Some declaration.now → ArePlaced ds globals.new) }
{
    match declaration {
        Declaration::Channels(kind, role, names) => {
            let mut left = room;
            for name in names {
                let full = (left == 0).then_some(CheckFault::TooMany(name.span));
                add(faults, full.or(twice(globals, name)))?;
                globals.keep(name, Entry::Channel(*kind, *role))?;
                left = left.saturating_sub(1);
            }
            Ok(left)
        }
        Declaration::Process(process) => {
            add(faults, twice(globals, &process.name))?;
            globals.keep(&process.name, Entry::Process(number, process))?;
            add_body(alloc, seed, faults, process)?;
            Ok(room)
        }
    }
}

/// Returns the fault of a channel that is handed over in a closed direction, or once more in that direction.
fn overtaken(
    direction: Direction,
    role: Role,
    taken: Option<Side>,
    span: Span,
) -> Option<CheckFault>
    ensures { result ≡ first_fault (overtaken direction (is_closed direction role) (held taken) span) }
{
    match (direction, role, taken) {
        (Out, Role::Inner | Role::Output, None) | (In, Role::Inner | Role::Input, None) => None,
        (Out, _, _) => Some(CheckFault::TwoWriters(span)),
        (In, _, _) => Some(CheckFault::TwoReaders(span)),
    }
}

/// Hands a channel over, right or wrong, and returns its fault. Of those at one side of a channel the first is found.
#[tactic(auto, using(crate::proofs::Global_names::find_global, crate::proofs::Told::err_first, crate::proofs::Told::or_firsts))]
fn hand(
    globals: &Globals,
    side: &mut ChannelSides,
    direction: Direction,
    kind: Kind,
    name: &Name,
    end: Side,
) -> Result<Option<CheckFault>, NoMemory>
    ensures found { IfOk result (λ f. f ≡ first_fault (misplaced_in (known globals.now) side.old direction kind name.now)) }
    ensures kept { OnOk result (side.new ≡ side.old ++ (bytes_of name.now, end) ∷ []) }
{
    let taken = side.find(name);
    side.keep(name, end)?;
    match globals.find(name) {
        None => Ok(Some(CheckFault::Unknown(name.span))),
        Some(Entry::Process(_, _)) => Ok(Some(CheckFault::ChannelExpected(name.span))),
        Some(Entry::Channel(found, role)) => {
            let wrong = agree(kind, found, name.span).err();
            Ok(wrong.or(overtaken(direction, role, taken, name.span)))
        }
    }
}

/// Hands an argument over, right or wrong, and returns its fault, if it isn't what its parameter wants.
#[tactic(auto, using(crate::proofs::Told::err_first, crate::proofs::Told::got_none))]
fn argument(
    globals: &Globals,
    writers: &mut ChannelSides,
    readers: &mut ChannelSides,
    taking: Taking,
    argument: &Argument,
    end: Side,
) -> Result<Option<CheckFault>, NoMemory>
    ensures found { IfOk result (λ f. f ≡ first_fault (place_faults (known globals.now) writers.old readers.old taking argument.now)) }
    ensures tables { OnOk result (HaveGot (handed end taking argument.now) writers.old readers.old writers.new readers.new) }
{
    match (taking, argument) {
        (Taking::Channel(Out, kind), Argument::Channel(name)) => {
            hand(globals, writers, Out, kind, name, end)
        }
        (Taking::Channel(In, kind), Argument::Channel(name)) => {
            hand(globals, readers, In, kind, name, end)
        }
        (Taking::Channel(_, _), Argument::Number(_, span) | Argument::Logical(_, span)) => {
            Ok(Some(CheckFault::ChannelExpected(*span)))
        }
        (Taking::Value(_), Argument::Channel(name)) => Ok(Some(CheckFault::ValueExpected(
            name.span,
        ))),
        (Taking::Value(kind), Argument::Number(_, span)) => Ok(agree(
            kind,
            Kind::Integer,
            *span,
        ).err()),
        (Taking::Value(kind), Argument::Logical(_, span)) => Ok(agree(
            kind,
            Kind::Logical,
            *span,
        ).err()),
    }
}

/// Hands the arguments of an instance over, and returns the first fault so far, or else theirs.
#[tactic(auto, using(crate::proofs::Told::arguments_begin, crate::proofs::Told::parameters_end))]
fn arguments(
    globals: &Globals,
    writers: &mut ChannelSides,
    readers: &mut ChannelSides,
    instance: usize,
    parameters: &[Parameter],
    arguments: &[Argument],
    first: Option<CheckFault>,
) -> Result<Option<CheckFault>, NoMemory>
    ensures found { IfOk result (λ f. f ≡ first_then first (places_faults (known globals.now) writers.old readers.old instance 0 parameters.now arguments.now)) }
    ensures tables { OnOk result (HaveGot (handed_in instance 0 parameters.now arguments.now) writers.old readers.old writers.new readers.new) }
{
    let mut found = first;
    for (number, it) in arguments.iter().enumerate() {
        let Some(parameter) = parameters.get(number) else {
            return Ok(found);
        };
        let end = Side {
            instance,
            parameter: number,
        };
        found = found.or(argument(globals, writers, readers, parameter.taking, it, end)?);
    }
    Ok(found)
}

/// Adds the first fault of instance `number`, and where its process is declared. What it hands over is kept, right or wrong.
#[tactic(auto, using(crate::proofs::Told::seat_made, crate::proofs::Told::seat_kept))]
fn add_instance(
    globals: &Globals,
    writers: &mut ChannelSides,
    readers: &mut ChannelSides,
    processes: &mut Vec<usize>,
    faults: &mut Vec<CheckFault>,
    number: usize,
    instance: &Instance,
) -> Result<(), NoMemory>
    ensures told { OnOk result (HasAddedFirst (seat_faults (known globals.now) writers.old readers.old number instance.now) faults.old.items faults.new.items) }
    ensures tables { OnOk result (HaveGot (handed_to (known globals.now) number instance.now) writers.old readers.old writers.new readers.new) }
    ensures numbers { OnOk result (HaveNumbers globals.now (made_of (meant (known globals.now) instance.now)) processes.old.items processes.new.items) }
{
    let span = instance.process.span;
    let limit = (number >= MOST_INSTANCES).then_some(CheckFault::TooMany(span));
    let Some(Entry::Process(declared, process)) = meaning(globals, &instance.process) else {
        return add(faults, limit.or(Some(CheckFault::Unknown(span))));
    };
    processes.push(declared)?;
    let (wanted, given) = (&process.parameters, &instance.arguments);
    let count = (wanted.len() != given.len()).then_some(CheckFault::WrongCount(span));
    let first = limit.or(count);
    let found = arguments(globals, writers, readers, number, wanted, given, first)?;
    add(faults, found)
}

/// Returns the fault of a channel of which a side that must be taken isn't taken.
fn side(
    writers: &ChannelSides,
    readers: &ChannelSides,
    name: &Name,
    role: Role,
) -> Option<CheckFault>
    ensures { result ≡ first_fault (side_in writers.now readers.now name.now role) }
{
    match (role, writers.find(name), readers.find(name)) {
        (Role::Inner | Role::Output, None, _) => Some(CheckFault::NoWriter(name.span)),
        (Role::Inner | Role::Input, _, None) => Some(CheckFault::NoReader(name.span)),
        (_, _, _) => None,
    }
}

/// Adds the wires of the channels of a declaration, and the first fault of the sides of each.
#[tactic(auto, using(crate::proofs::Told::wired_step, crate::proofs::Told::wired_begin, crate::proofs::Told::channels_wired, crate::proofs::Told::process_wired))]
fn add_wires(
    wires: &mut Vec<(String, Wire)>,
    faults: &mut Vec<CheckFault>,
    writers: &ChannelSides,
    readers: &ChannelSides,
    declaration: &Declaration,
) -> Result<(), NoMemory>
    ensures { OnOk result (HasWired writers.now readers.now declaration.now wires.new.items faults.new.items wires.old.items faults.old.items) }
{
    let Declaration::Channels(kind, role, names) = declaration else {
        return Ok(());
    };
    for name in names {
        add(faults, side(writers, readers, name, *role))?;
        let wire = Wire {
            kind: *kind,
            role: *role,
            writer: writers.find(name),
            reader: readers.find(name),
        };
        wires.push((name.text.clone()?, wire))?;
    }
    Ok(())
}

/// Returns the faults of the sides of channels, unless something else is wrong.
fn unless_empty(faults: Vec<CheckFault>, sides: Vec<CheckFault>) -> Vec<CheckFault>
    ensures { result.items ≡ unless_empty faults.items sides.items }
{
    if faults.is_empty() { sides } else { faults }
}

/// Returns the first fault of each part of a program, and its tables. The sides of channels are told of only if nothing else is wrong.
fn walk(alloc: Global, seed: RandomState, program: &Program) -> Result<CheckWalk, NoMemory>
    ensures { IfOk result (IsWalkOf program.now) }
{
    let mut globals = Globals::new(alloc, seed);
    let mut faults = Vec::new(alloc);
    let mut room = MOST_CHANNELS;
    for (number, declaration) in program.declarations.iter().enumerate() {
        room = add_declaration(
            alloc,
            seed,
            &mut globals,
            &mut faults,
            room,
            number,
            declaration,
        )?;
    }
    let mut writers = ChannelSides::new(alloc, seed);
    let mut readers = ChannelSides::new(alloc, seed);
    let mut processes = Vec::new(alloc);
    for (seat, instance) in program.instances.iter().enumerate() {
        add_instance(
            &globals,
            &mut writers,
            &mut readers,
            &mut processes,
            &mut faults,
            seat,
            instance,
        )?;
    }
    let mut wires = Vec::new(alloc);
    let mut sides = Vec::new(alloc);
    for channels in &program.declarations {
        add_wires(&mut wires, &mut sides, &writers, &readers, channels)?;
    }
    Ok(CheckWalk {
        faults: unless_empty(faults, sides),
        wires,
        processes,
    })
}

/// Returns what is wrong with a program: the first fault of each declared name, of each body and of each instance, in text
/// order; and if all these are right, of each declared channel that lacks a writer or a reader. The first of them is the one
/// that `check` returns. Names are hashed under `seed`, on which no answer depends. Fails only if memory was refused.
pub fn every(
    alloc: Global,
    seed: RandomState,
    program: &Program,
) -> Result<Vec<CheckFault>, NoMemory>
    ensures { IfOk result (λ faults. faults.items ≡ faults_by_part program.now) }
{
    Ok(walk(alloc, seed, program)?.faults)
}

/// Makes the network of a program, or returns the first thing that is wrong with it, in this order: the declarations in
/// text order, then the instances, then each declared channel that lacks a writer or a reader. Names are hashed under `seed`,
/// on which no answer depends. Fails with `NoMemory` if memory was refused.
pub fn check(alloc: Global, seed: RandomState, program: Program) -> Result<Network, CheckFault>
    ensures { MatchResult result (λ n. (n ≡ program) × IsWellWired program) (λ f. IsMet (faults program) f) }
{
    let Ok(walked) = walk(alloc, seed, &program) else {
        return Err(CheckFault::NoMemory);
    };
    match walked.faults.first().copied() {
        Some(fault) => Err(fault),
        None => {
            kept(alloc, seed, program, walked.wires, walked.processes).map_err(
                |_| CheckFault::NoMemory,
            )
        }
    }
}
