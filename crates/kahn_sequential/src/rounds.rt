//! A run on one thread: rounds in which each instance has its turn, until a round in which nothing was done. After a round in which
//! most turns did nothing, the instances that can run have turns one after another before the next round.
//!
//! Which these are, and whether there is work for several workers, are hints (`awake.rt`). They have no clauses on purpose, since
//! no answer depends on them: they only save time.

ghost use Rattle.kahn_sequential.specs.inner.Bench.{HasRunCell, IsVerdict, all_events, events_at};
ghost use Rattle.kahn_sequential.specs.{inner.FlowBench.IsPartEnd, inner.Recording.HasRecorded, inner.Recording.IsRecording};
ghost use Rattle.kahn_sequential.specs.inner.Workbench.{HasAdvanced, HasTakenTurn, HasVisited, HasWorked, IsInRound, IsMarked, MayRun, sight_of, turn_of, weight};
ghost use Rattle.std.specs.Prelude.{◌≡◌, ◌<◌, ◌≤◌, ◌+◌, ◌-◌, ◌^◌, length, false, true, vec_capacity, IfErr, IfOk};

use crate::bench::Sequential;
use crate::counted::keep_sent;
use kahn_code::{Called, Far, Pause, Steps, Within};
use kahn_streams::{End, Gate, Outcome, Stream, Verdict};
use std::sync::ledger::Ledger;

// How many turns, for each instance, those that may go on have at most before the next round of all, which also comes to an instance
// that the run queue lost.
const AWAKE_TURNS: usize = 256;

// This many rounds note their ends before brief rounds come, which note none, so that a short run ends with the round that it ends in.
const NOTED_ROUNDS: usize = 4;

// How many brief rounds come between two looks at whether most turns did nothing; and how many such looks there are at most: a number,
// since each loop needs an end.
const TOGETHER: usize = 8;

const BRIEF_ROUNDS: usize = 1_000_000;

// If more events for each instance were done between two looks, turns are long.
const BRIEF_EVENTS: usize = 64;

/// What is left to do in a run on one thread, and what its last round did.
#[derive(Drop)]
pub struct Round {
    // The most events of a turn, how many are left of the bound, whether memory was refused, how many turns did nothing, and how each
    // instance stood after its turn.
    quantum: u64,
    pub left: u64,
    pub memory: bool,
    pub idle_turns: usize,
    pub ends: Vec<End>,
}

/// What a run on one thread is given: the count of its steps, the gate before each quantum, and whether it may be left to several
/// workers.
#[derive(Drop)]
pub struct Driver<'g, L: Ledger, G: Gate> {
    pub steps: Steps<L>,
    pub gate: &'g G,
    pub may_leave: bool,
}

/// How a part ended: its verdict, the end of each instance, and what is left of its bound.
#[derive(Drop)]
pub struct PartEnd {
    pub verdict: Verdict,
    pub ends: Vec<End>,
    pub left: u64,
}

impl Round {
    /// Returns the state before the first round of a run for `bound` events. The list of ends has room for each instance.
    pub fn new(bench: &Sequential<'_>, quantum: u64, bound: u64, ends: Vec<End>) -> Round
        requires quantum { 0 < quantum }
        requires bound { all_events (sight_of bench.now) + bound < 2 ^ 48 }
        requires room { length (sight_of bench.now).network.instances ≤ vec_capacity ends }
        ensures may { MayRun (sight_of bench.now) result }
        ensures same { (result.quantum ≡ quantum) × (result.left ≡ bound) × (result.ends ≡ ends) }
    {
        let _count = bench.instance_count();
        Round {
            quantum,
            left: bound,
            memory: false,
            idle_turns: 0,
            ends,
        }
    }

    fn mark(&mut self, done: u64, stopped: Pause)
        requires { done ≤ self.old.left }
        ensures { IsMarked done stopped self.old self.new }
    {
        self.left -= done;
        if matches!(stopped, Pause::NoMemory) {
            self.memory = true;
        }
    }

    // Marks a turn before which an instance had done so many events, and notes it if nothing or much was done.
    #[inline(always)]
    fn mark_turn(
        &mut self,
        bench: &mut Sequential<'_>,
        instance: usize,
        before: u64,
        stopped: Pause,
    )
        requires here { instance < length (sight_of bench.old).network.instances }
        requires up { before ≤ events_at (sight_of bench.old) instance }
        requires few { events_at (sight_of bench.old) instance ≤ before + self.old.left }
        ensures bench { bench.new ≡ bench.old }
        ensures marked { IsMarked (events_at (sight_of bench.old) instance - before) stopped self.old self.new }
    {
        let done = bench.events(instance) - before;
        self.mark(done, stopped);
        if bench.is_brief(done) {
            return;
        }
        if done == 0 {
            self.idle_turns = self.idle_turns.wrapping_add(1);
            return;
        }
        bench.note_turn(instance, done, self.left);
    }

    // How many events the next turn may do.
    fn turn(&self) -> u64
        ensures { result ≡ turn_of self.now }
    {
        if self.memory {
            0
        } else {
            self.quantum.min(self.left)
        }
    }

    fn is_over(&self) -> bool {
        self.memory || self.left == 0
    }

    /// How much there is to do.
    pub fn weight(&self) -> u64
        requires { self.now.left + 1 < 2 ^ 64 }
        ensures { result ≡ weight self.now }
    {
        self.left + u64::from(!self.memory)
    }

    fn is_sparse(&self) -> bool {
        self.idle_turns > self.ends.len() / 2
    }
}

// Whether turns of a round that notes no ends may be long.
trait TurnLength {
    #[inline(always)]
    fn is_long() -> bool {
        false
    }
}

impl TurnLength for Within {}

impl TurnLength for Far {
    #[inline(always)]
    fn is_long() -> bool {
        true
    }
}

#[inline(never)]
fn run_apart<L: Ledger>(
    bench: &mut Sequential<'_>,
    instance: usize,
    quantum: u64,
    steps: &mut Steps<L>,
) -> Pause
    requires here { instance < length (sight_of bench.old).network.instances }
    requires bound { events_at (sight_of bench.old) instance + quantum < 2 ^ 48 }
    ensures { HasRunCell (sight_of bench.old) (sight_of bench.new) instance quantum result × HasWorked bench.old bench.new }
{
    bench.run::<L, Called>(instance, false, quantum, steps)
}

// The same of a turn that may be long.
#[inline(never)]
fn run_long<L: Ledger>(
    bench: &mut Sequential<'_>,
    instance: usize,
    quantum: u64,
    steps: &mut Steps<L>,
) -> Pause
    requires here { instance < length (sight_of bench.old).network.instances }
    requires bound { events_at (sight_of bench.old) instance + quantum < 2 ^ 48 }
    ensures { HasRunCell (sight_of bench.old) (sight_of bench.new) instance quantum result × HasWorked bench.old bench.new }
{
    if !bench.may_feed(instance) {
        return run_apart(bench, instance, quantum, steps);
    }
    bench.run::<L, Far>(instance, true, quantum, steps)
}

impl<'g, L: Ledger, G: Gate> Driver<'g, L, G> {
    // Runs an instance for at most `quantum` events: at an open gate, if `within` says so, by a loop of instructions that stands within the
    // rounds; else by one apart, where the turn may be long if `far` says so. A gate that isn't open is entered just before, if the
    // instance may go on.
    #[inline(always)]
    fn run_turn(
        &mut self,
        bench: &mut Sequential<'_>,
        instance: usize,
        far: bool,
        within: bool,
        quantum: u64,
    ) -> Pause
        requires here { instance < length (sight_of bench.old).network.instances }
        requires bound { events_at (sight_of bench.old) instance + quantum < 2 ^ 48 }
        ensures ran { HasRunCell (sight_of bench.old) (sight_of bench.new) instance quantum result }
        ensures worked { HasWorked bench.old bench.new }
    {
        if within && self.gate.is_open() {
            return bench.run::<L, Within>(instance, false, quantum, &mut self.steps);
        }
        if self.gate.is_open() || quantum == 0 {
            if far {
                return run_long(bench, instance, quantum, &mut self.steps);
            }
            return run_apart(bench, instance, quantum, &mut self.steps);
        }
        let next = run_apart(bench, instance, 0, &mut self.steps);
        if !matches!(next, Pause::Spent) {
            return next;
        }
        self.gate.enter(instance);
        run_apart(bench, instance, quantum, &mut self.steps)
    }

    #[inline(always)]
    fn take_turn(
        &mut self,
        bench: &mut Sequential<'_>,
        round: &mut Round,
        instance: usize,
        far: bool,
        within: bool,
    ) -> Pause
        requires here { instance < length (sight_of bench.old).network.instances }
        requires may { MayRun (sight_of bench.old) round.old }
        ensures { HasTakenTurn bench.old bench.new round.old round.new instance result }
    {
        let before = bench.events(instance);
        let quantum = round.turn();
        let stopped = self.run_turn(bench, instance, far, within, quantum);
        round.mark_turn(bench, instance, before, stopped);
        stopped
    }

    /// Gives an instance its turn, which may be a long one if `far` says so, and returns its state after that.
    #[inline(always)]
    pub(crate) fn visit(
        &mut self,
        bench: &mut Sequential<'_>,
        round: &mut Round,
        instance: usize,
        far: bool,
    ) -> End
        requires here { instance < length (sight_of bench.old).network.instances }
        requires may { MayRun (sight_of bench.old) round.old }
        ensures { HasVisited bench.old bench.new round.old round.new instance result }
    {
        let stopped = self.take_turn(bench, round, instance, far, false);
        let outcome = match stopped {
            Pause::Spent => Outcome::More,
            Pause::NoMemory => Outcome::More,
            Pause::Ended => Outcome::Ended,
            Pause::Fault(failure) => Outcome::Faulted(failure),
            Pause::Dry(parameter) => Outcome::Waits(bench.channel(instance, parameter)),
        };
        let events = bench.events(instance);
        End { outcome, events }
    }

    // The turn of an instance whose end isn't noted. If turns are long, one that is far ahead of its readers is passed over, so that they come
    // up to it.
    #[inline(always)]
    fn pass_or_turn<M: TurnLength>(
        &mut self,
        bench: &mut Sequential<'_>,
        round: &mut Round,
        instance: usize,
    )
        requires here { instance < length (sight_of bench.old).network.instances }
        requires may { MayRun (sight_of bench.old) round.old }
        ensures { HasAdvanced bench.old bench.new round.old round.new }
    {
        if M::is_long() && bench.is_ahead(instance) {
            return;
        }
        self.take_turn(bench, round, instance, M::is_long(), !M::is_long());
    }

    // A round that notes no ends, of long turns or of brief ones. It is over where memory was refused.
    #[tactic(auto, using(crate::proofs::Turns::moved_on))]
    fn brief_round<M: TurnLength>(&mut self, bench: &mut Sequential<'_>, round: &mut Round)
        requires { MayRun (sight_of bench.old) round.old }
        ensures { HasAdvanced bench.old bench.new round.old round.new }
    {
        let count = bench.instance_count();
        round.idle_turns = 0;
        for instance in 0..count {
            if round.memory {
                return;
            }
            self.pass_or_turn::<M>(bench, round, instance);
        }
    }

    #[inline(never)]
    fn rounds_together<M: TurnLength>(&mut self, bench: &mut Sequential<'_>, round: &mut Round)
        requires { MayRun (sight_of bench.old) round.old }
        ensures { HasAdvanced bench.old bench.new round.old round.new }
    {
        for _ in 0..TOGETHER {
            if self.leaves(bench) {
                return;
            }
            self.brief_round::<M>(bench, round);
        }
    }

    fn next_rounds(&mut self, bench: &mut Sequential<'_>, round: &mut Round, is_long: bool)
        requires { MayRun (sight_of bench.old) round.old }
        ensures { HasAdvanced bench.old bench.new round.old round.new }
    {
        if is_long {
            self.rounds_together::<Far>(bench, round);
            return;
        }
        self.rounds_together::<Within>(bench, round);
    }

    // A round that notes the end of each instance, and records what it sent.
    fn noted_round(
        &mut self,
        bench: &mut Sequential<'_>,
        round: &mut Round,
        recording: &mut Option<Vec<Stream>>,
    )
        requires may { MayRun (sight_of bench.old) round.old }
        requires recorded { IsRecording bench.old round.old.quantum recording.old }
        ensures round { IsInRound bench.old round.old bench.new round.new (length (sight_of bench.new).network.instances) }
        ensures recorded { IsRecording bench.new round.new.quantum recording.new }
    {
        let count = bench.instance_count();
        round.idle_turns = 0;
        round.ends.clear();
        for instance in 0..count {
            bench.stood_at(instance);
            let end = self.visit(bench, round, instance, true);
            bench.stood_at(instance);
            round.ends.push_reserved(end);
            keep_sent(bench, recording);
        }
    }

    // Whether there is work for several workers, to whom the run may be left.
    fn leaves(&self, bench: &Sequential<'_>) -> bool {
        self.may_leave && bench.wide() > 0
    }

    // Turns of those that may go on, one after another. Here and in brief rounds the round is a local value, which is quicker.
    fn awake_turns(&mut self, bench: &mut Sequential<'_>, last: Round) -> Round
        requires { MayRun (sight_of bench.old) last }
        ensures { HasAdvanced bench.old bench.new last result }
    {
        bench.wake_all();
        let mut round = last;
        for _ in 0..bench.instance_count().saturating_mul(AWAKE_TURNS) {
            if round.is_over() || self.leaves(bench) {
                return round;
            }
            let Some(instance) = bench.next() else {
                return round;
            };
            let left = round.left;
            let end = self.visit(bench, &mut round, instance, false);
            bench.note_left(instance, end.outcome, left.wrapping_sub(round.left));
        }
        round
    }

    // Brief rounds, after the first ones, until one in which nothing or little was done.
    fn brief_rounds(&mut self, bench: &mut Sequential<'_>, last: Round, is_first: bool) -> Round
        requires { MayRun (sight_of bench.old) last }
        ensures { HasAdvanced bench.old bench.new last result }
    {
        let mut round = last;
        let mut left = u64::MAX;
        for _ in 0..BRIEF_ROUNDS {
            if round.left == left {
                // Nothing was done, so that no one is known to go on.
                round.idle_turns = 0;
                return round;
            }
            if is_first || round.is_over() || round.is_sparse() || self.leaves(bench) {
                return round;
            }
            let most = round.ends.len().saturating_mul(BRIEF_EVENTS) as u64;
            let is_long = left.wrapping_sub(round.left) > most;
            left = round.left;
            self.next_rounds(bench, &mut round, is_long);
        }
        round
    }

    // What comes between two rounds that note their ends, if the gate is open and nothing is recorded: brief rounds, and if most turns of the
    // last one did nothing, turns of those that may go on. At other gates all take turns.
    fn between_rounds(
        &mut self,
        bench: &mut Sequential<'_>,
        last: Round,
        is_first: bool,
        recording: &Option<Vec<Stream>>,
    ) -> Round
        requires may { MayRun (sight_of bench.old) last }
        requires recorded { IsRecording bench.old last.quantum recording.now }
        ensures advanced { HasAdvanced bench.old bench.new last result }
        ensures recorded { IsRecording bench.new result.quantum recording.now }
    {
        if recording.is_some() || !self.gate.is_open() {
            return last;
        }
        let round = self.brief_rounds(bench, last, is_first);
        if round.is_sparse() {
            return self.awake_turns(bench, round);
        }
        round
    }

    /// Does rounds to the end of a part, until one in which nothing was done.
    /// If the run may be left, it also stops when there is work for several workers: then the error is the round from which the run
    /// can continue.
    pub(crate) fn to_end(
        &mut self,
        bench: &mut Sequential<'_>,
        first: Round,
        recording: &mut Option<Vec<Stream>>,
    ) -> Result<PartEnd, Round>
        requires may { MayRun (sight_of bench.old) first }
        requires recorded { IsRecording bench.old first.quantum recording.old }
        ensures ended { IfOk result (IsPartEnd bench.new (all_events (sight_of bench.old) + first.left)) }
        ensures wide { IfErr result (λ r. (self.old.may_leave ≡ true) × HasAdvanced bench.old bench.new first r) }
        // A run to which memory was refused stays.
        ensures calm { IfErr result (λ r. r.memory ≡ false) }
        ensures room { IfOk result (λ r. length (sight_of bench.new).network.instances ≤ vec_capacity r.ends) }
        ensures worked { HasWorked bench.old bench.new }
        ensures recorded { HasRecorded bench.new recording.new }
    {
        let may_leave = self.may_leave;
        let mut round = first;
        let mut rounds = 0_usize;
        'rounds: loop {
            let before = round.weight();
            self.noted_round(bench, &mut round, recording);
            if round.weight() == before {
                bench.stood();
                let verdict = verdict_of(round.memory, &round.ends);
                return Ok(PartEnd {
                    verdict,
                    ends: round.ends,
                    left: round.left,
                });
            }
            rounds = rounds.saturating_add(1);
            round = self.between_rounds(bench, round, rounds <= NOTED_ROUNDS, recording);
            if may_leave && !round.memory && bench.wide() > 0 {
                return Err(round);
            }
        }
    }
}

/// The rule of verdicts.
pub fn verdict_of(memory: bool, ends: &[End]) -> Verdict
    ensures { IsVerdict memory ends.now result }
{
    if memory {
        return Verdict::Memory;
    }
    for end in ends {
        if matches!(end.outcome, Outcome::More) {
            return Verdict::Bound;
        }
    }
    Verdict::Finished
}
