//! The calls of a lane: tokens of one channel pass between two threads in segments, in the order of their places.
//!
//! The writer asks for room, puts a token into its open segment, and flushes the segment when it is full or when the reader
//! is to see it. The reader steals a segment when its own is used up, and takes its tokens one by one. No call ever blocks.

ghost use Rattle.std.specs.Prelude.{◌≡◌, ◌+◌, ◌≤◌, ◌<◌, ◌^◌, ◌⊎◌, true, false, vec_len, IfOk, IsOk, OnErr, IsSome, MatchResult, MatchOption, Some, ◌-◌, [], IfErr, ℕ, length, vec_capacity};
ghost use Rattle.crossbeam_deque.specs.Handles.{worker_view, worker_deque, worker_capacity, worker_flavor, worker_index, stealer_deque, stealer_flavor};
ghost use Rattle.kahn_lane.specs.{Places.lane_name, Places.name_on_line, Places.token_name, Places.tag_name, Places.opening_mark, Places.owner, LaneEnds.sender_lane, LaneEnds.receiver_lane, LaneEnds.sender_name, LaneEnds.filled, LaneEnds.flushed, LaneEnds.sent, LaneEnds.CanPut, LaneEnds.received, LaneEnds.waiting, LaneEnds.CanTake, LaneEnds.heard, LaneEnds.left, LaneEnds.SameSender, LaneEnds.SameReceiver, LaneEnds.AreEndsNamed, LaneEnds.HavePassed, LaneEnds.TakesNext, LaneEnds.WasDry, Places.StandFrom, Places.moved_to, inner.LaneRule.size, inner.LaneRule.tokens_of, inner.Settles.HasBothRights, inner.Settles.HasStolen, inner.Settles.IsGrown, inner.Settles.LiftsTo, inner.Settles.SameLifted, declared.name.LaneName.LaneName};
ghost use Rattle.kahn_streams.specs.Inputs.{Names};

use crate::handover::{LaneFault, TRIES, small_deque};
use crate::name::{Tag, tag_by};
use crate::segments::{
    Bare, Behind, Emptied, Flushed, InPlaces, LaneStealer, LaneWorker, Lifted, Mark, Receiver,
    Segment, Sender, Sides, Starting, Stolen, Telling,
};
use crossbeam_deque::Steal;
use kahn_streams::{Carried, Input, Line, Network, NoMemory, Steps, Token};
use std::alloc::Allocator;
use std::marker::Brand;
use std::mem;
use std::sync::ledger::{Blank, Ledger};

// How many tokens a segment has at most.
const SEGMENT: usize = 64;

// The deque of a new lane that begins at the tag's place, with its name known to both ends: one that was made with memory for one segment.
#[tactic(auto, using(crate::proofs::LaneMoves::tells, crate::proofs::LaneMoves::starts))]
fn opened<A: Allocator + Clone + Drop>(
    alloc: A,
    tag: Tag,
    made: LaneWorker<A>,
) -> Result<(LaneWorker<A>, LaneStealer<A>), LaneFault>
    requires small { worker_capacity made ≡ 1 }
    requires first { (worker_flavor made ≡ 0) × (worker_index made ≡ 0) × (worker_view made ≡ opening_mark) }
    ensures made { IfOk result (λ r. worker_deque r.0 ≡ worker_deque made) }
    ensures one { IfOk result (λ r. (worker_deque r.0 ≡ stealer_deque r.1) × (worker_flavor r.0 ≡ 0) × (stealer_flavor r.1 ≡ 0)) }
    ensures view { IfOk result (λ r. worker_view r.0 ≡ owner (Some (tag_name tag)) tag.from) }
{
    let head = Segment {
        tag: Some(tag),
        alone: None,
        tokens: Vec::new(alloc),
    };
    let mut worker = made;
    let Ok(()) = worker.push_as::<Telling>(head) else {
        return Err(LaneFault::NoMemory);
    };
    let Some(_) = worker.pop_as::<Starting>() else {
        unreachable!()
    };
    let stealer = worker.stealer()?;
    Ok((worker, stealer))
}

// The two ends of a new lane that begins at a place of a line, for the network and the input that the caller takes from two things at hand.
#[tactic(auto, using(crate::proofs::LaneMoves::forks))]
fn lane_from<A: Allocator + Clone + Drop, X, Y>(
    alloc: A,
    x: &X,
    y: &Y,
    line: Line,
    place: u64,
) -> Result<(Sender<A>, Receiver<A>), LaneFault>
    ghost names: { Names }
    requires { place ≤ 2 ^ 48 }
    ensures lane { IfOk result (λ r. sender_lane r.0 ≡ receiver_lane r.1) }
    ensures name { IfOk result (λ r. AreEndsNamed (Some (name_on_line names.network names.input line)) r.0 r.1) }
    ensures start { IfOk result (λ r. HavePassed place r.0 r.1) }
    ensures dry { IfOk result (λ r. vec_len r.1.current ≡ 0) }
{
    let head = tag_by(x, y, line, place);
    let tag = tag_by(x, y, line, place);
    let left = Vec::new(alloc.clone()?);
    let right = Vec::with_capacity(alloc.clone()?, 1)?;
    let made = small_deque::<Segment<A>, A, Mark, InPlaces>(alloc.clone()?)?;
    let (mut worker, stealer) = opened(alloc, head, made)?;
    let pass = worker.another::<Sides>();
    let (line, from) = (tag.line, tag.from);
    let sender = Sender {
        worker,
        tag,
        current: left,
        flushed: from,
    };
    let receiver = Receiver {
        stealer,
        pass,
        line,
        from,
        current: right,
        used: 0,
    };
    Ok((sender, receiver))
}

/// Makes a lane for the tokens of a channel. Its two ends may go to different threads. Nothing was put yet.
pub fn lane<A: Allocator + Clone + Drop>(
    alloc: A,
    network: &Network,
    input: &Input,
    channel: usize,
) -> Result<(Sender<A>, Receiver<A>), LaneFault>
    ensures lane { IfOk result (λ r. sender_lane r.0 ≡ receiver_lane r.1) }
    ensures name { IfOk result (λ r. AreEndsNamed (Some (lane_name network.now input.now channel)) r.0 r.1) }
    ensures start { IfOk result (λ r. HavePassed 0 r.0 r.1) }
{
    lane_at(alloc, network, input, channel, 0)
}

/// Makes a lane for the tokens of a channel from a place on: those before it were put and taken elsewhere.
pub fn lane_at<A: Allocator + Clone + Drop>(
    alloc: A,
    network: &Network,
    input: &Input,
    channel: usize,
    place: u64,
) -> Result<(Sender<A>, Receiver<A>), LaneFault>
    requires { place ≤ 2 ^ 48 }
    ensures lane { IfOk result (λ r. sender_lane r.0 ≡ receiver_lane r.1) }
    ensures name { IfOk result (λ r. AreEndsNamed (Some (lane_name network.now input.now channel)) r.0 r.1) }
    ensures start { IfOk result (λ r. HavePassed place r.0 r.1) }
{
    lane_from(alloc, network, input, Line::Channel(channel), place)
}

impl<A: Allocator + Clone + Drop> Sender<A> {
    /// Makes room for one token. An open segment of 64 tokens is flushed first. If memory is refused, all tokens stay,
    /// those of a full segment may have been flushed, and there is no room. Never allocates if there is room already.
    pub fn room(&mut self) -> Result<(), NoMemory>
        ensures same { SameSender self.old self.new × (sent self.new ≡ sent self.old) }
        ensures room { IfOk result (λ _. CanPut self.new) }
        ensures flushed { (flushed self.new ≡ flushed self.old) ⊎ ((sent self.old ≡ flushed self.old + 64) × (flushed self.new ≡ sent self.old)) }
        ensures spare { CanPut self.old → IsOk result }
        ensures full { OnErr result (CanPut self.new → ⊥) }
    {
        if self.current.len() >= SEGMENT {
            self.flush()?;
        }
        if self.current.len() < self.current.capacity() {
            return Ok(());
        }
        self.current.reserve_exact(SEGMENT - self.current.len())?;
        Ok(())
    }

    /// Flushes the open segment, so that the reader can take its tokens, and returns how many tokens were flushed so far, which
    /// is all that were put. If memory is refused, the segment stays open; an empty one needs none. Room for one token stays.
    pub fn flush(&mut self) -> Result<u64, NoMemory>
        ensures same { SameSender self.old self.new × (sent self.new ≡ sent self.old) }
        ensures flushed { MatchResult result (λ n. (n ≡ sent self.old) × (flushed self.new ≡ sent self.old)) (λ _. flushed self.new ≡ flushed self.old) }
        ensures idle { sent self.old ≡ flushed self.old → IsOk result }
        ensures room { CanPut self.old → CanPut self.new }
    {
        let count = self.current.len();
        if count == 0 {
            return Ok(self.flushed);
        }
        if count == 1 {
            return self.flush_alone();
        }
        let alloc = self.current.allocator().clone()?;
        let next = Vec::with_capacity(alloc, SEGMENT)?;
        let tokens = mem::replace(&mut self.current, next);
        match self.worker.push_as::<Flushed>(Segment {
            tag: None,
            alone: None,
            tokens,
        }) {
            Ok(()) => {
                self.flushed += count as u64;
                Ok(self.flushed)
            }
            Err(segment) => {
                self.current = segment.tokens;
                Err(NoMemory)
            }
        }
    }

    // Flushes the one token of the open segment, whose list stays.
    fn flush_alone(&mut self) -> Result<u64, NoMemory>
        requires { filled self.old ≡ 1 }
        ensures same { SameSender self.old self.new × (sent self.new ≡ sent self.old) }
        ensures flushed { MatchResult result (λ n. (n ≡ sent self.old) × (flushed self.new ≡ sent self.old)) (λ _. flushed self.new ≡ flushed self.old) }
        ensures room { CanPut self.old → CanPut self.new }
    {
        let alloc = self.current.allocator().clone()?;
        let segment = Segment {
            tag: None,
            alone: self.current.pop(),
            tokens: Vec::new(alloc),
        };
        match self.worker.push_as::<Flushed>(segment) {
            Ok(()) => {
                self.flushed += 1;
                Ok(self.flushed)
            }
            Err(back) => {
                self.current.push_reserved(back.alone.unwrap());
                Err(NoMemory)
            }
        }
    }
}

impl<A: Allocator> Sender<A> {
    /// Puts the next token into the open segment, where `room` has made room. Never allocates.
    #[tactic(auto, using(crate::proofs::Places::placed_more))]
    pub fn put(&mut self, token: Token)
        requires room { CanPut self.old }
        requires token { (sender_name self.old ≡ Some (token_name token)) × (token.place ≡ sent self.old) × (sent self.old < 2 ^ 48) }
        ensures same { SameSender self.old self.new × (flushed self.new ≡ flushed self.old) }
        ensures sent { sent self.new ≡ sent self.old + 1 }
    {
        self.current.push_reserved(Carried::of(token));
    }

    /// Returns how many tokens were put so far, flushed or not: the place of the next one.
    pub fn sent(&self) -> u64
        ensures { result ≡ sent self.now }
    {
        self.flushed + self.current.len() as u64
    }

    /// Returns how many tokens were flushed so far, also after a refusal.
    pub fn flushed(&self) -> u64
        ensures { result ≡ flushed self.now }
    {
        self.flushed
    }
}

impl<A: Allocator + Drop> Receiver<A> {
    /// Whether the next `take` gives a token. `false` only when `take` may give `None`. Never allocates.
    pub fn ready(&mut self) -> bool
        ensures same { SameReceiver self.old self.new × (received self.new ≡ received self.old) × (heard self.new ≡ heard self.old) }
        ensures ready { result ≡ true → CanTake self.new }
        ensures still { CanTake self.old → result ≡ true }
        ensures dry { result ≡ false → WasDry self.old self.new }
    {
        self.used < self.current.len() || self.refill::<Brand>(Blank::new(1))
    }

    /// Returns the next token, whose place is the number of tokens taken. `None` only if the deque was empty at some
    /// moment of the call, so that all that is known to have been flushed was taken, or after 64 steals that each met
    /// another step: then 64 segments have left the deque that this end didn't know to have left it. Never allocates.
    #[tactic(auto, using(crate::proofs::Places::placed_at))]
    pub fn take(&mut self) -> Option<Token>
        ensures same { SameReceiver self.old self.new × (heard self.new ≡ heard self.old) }
        ensures ready { CanTake self.old → IsSome result }
        ensures rule { MatchOption result ((received self.new ≡ received self.old) × WasDry self.old self.new) (TakesNext self.old self.new) }
    {
        if !self.ready() {
            return None;
        }
        let place = self.taken();
        let token = self.current[self.used].token(self.line, place);
        self.used += 1;
        Some(token)
    }

    /// Returns how many tokens were taken so far: the place of the next one.
    pub fn taken(&self) -> u64
        ensures { result ≡ received self.now }
    {
        self.from + self.used as u64
    }

    // Steals the next segment. It stands apart, so that `take` is short enough to be compiled into its callers.
    #[inline(never)]
    fn refill<L: Ledger>(&mut self, blank: Blank) -> bool
        requires dry { waiting self.old ≡ 0 }
        requires blank { (blank.name ≡ L.name) × (blank.parts ≡ L.parts) × (0 < blank.parts) }
        ensures same { SameReceiver self.old self.new × (received self.new ≡ received self.old) × (heard self.new ≡ heard self.old) }
        ensures ready { result ≡ true → CanTake self.new }
        ensures dry { result ≡ false → WasDry self.old self.new }
    {
        let mut tries = Steps::<L>::open(blank);
        self.steal_next(&mut tries)
    }

    #[tactic(auto, using(crate::proofs::LaneMoves::steals, crate::proofs::LaneMoves::finds))]
    fn steal_next<L: Ledger>(&mut self, tries: &mut Steps<L>) -> bool
        requires { waiting self.old ≡ 0 }
        ensures same { SameReceiver self.old self.new × (received self.new ≡ received self.old) × (heard self.new ≡ heard self.old) }
        ensures ready { result ≡ true → CanTake self.new }
        ensures dry { result ≡ false → WasDry self.old self.new }
        ensures few { tries.new ≤ tries.old + 64 }
    {
        let taken = self.taken();
        for _ in 0..TRIES {
            tries.tick();
            match self.stealer.steal_as::<Stolen>(&mut self.pass) {
                Steal::Success(segment) => {
                    let Segment {
                        tag: _,
                        alone,
                        tokens,
                    } = segment;
                    self.from = taken;
                    self.used = 0;
                    match alone {
                        None => self.current = tokens,
                        Some(token) => {
                            self.current.clear();
                            self.current.push_reserved(token);
                        }
                    }
                    return true;
                }
                Steal::Empty => return false,
                Steal::Retry => {}
            }
        }
        false
    }
}

/// Returns, with both ends in one thread, how many tokens were flushed and not taken. Never allocates.
#[tactic(auto, using(crate::proofs::LaneMoves::forks_bare, crate::proofs::LaneMoves::merges, crate::proofs::LaneMoves::behind, crate::proofs::LaneMoves::forks, crate::proofs::LaneMoves::merges_bare))]
pub fn meet<A: Allocator>(sender: &mut Sender<A>, receiver: &mut Receiver<A>) -> u64
    requires { sender_lane sender.old ≡ receiver_lane receiver.old }
    ensures sender { SameSender sender.old sender.new × (sent sender.new ≡ sent sender.old) × (flushed sender.new ≡ flushed sender.old) }
    ensures receiver { SameReceiver receiver.old receiver.new × (received receiver.new ≡ received receiver.old) }
    ensures ready { CanTake receiver.old → CanTake receiver.new }
    ensures rule { received receiver.old + result ≡ flushed sender.old }
    // The tokens at hand are among these.
    ensures held { waiting receiver.old ≤ result }
    ensures known { heard receiver.new ≡ flushed sender.old }
{
    let bare = sender.worker.another::<Bare>();
    let pass = mem::replace(&mut receiver.pass, bare);
    sender.worker.absorb::<Sides>(pass);
    let _segments = sender.worker.len_as::<Behind>();
    let pass = sender.worker.another::<Sides>();
    let bare = mem::replace(&mut receiver.pass, pass);
    sender.worker.absorb::<Bare>(bare);
    sender.flushed - receiver.taken()
}

impl<A: Allocator + Drop> Lifted<A> {
    #[tactic(auto, using(crate::proofs::Places::placed_more))]
    fn put(&mut self, input: &Input, carried: &Carried)
        requires room { vec_len self.old.tokens < vec_capacity self.old.tokens }
        requires next { (token_name carried.now ≡ tag_name self.old.from) × (carried.now.place ≡ self.old.first + vec_len self.old.tokens) }
        requires input { LiftsTo self.old input.now }
        ensures same { SameLifted self.old self.new }
        ensures more { vec_len self.new.tokens ≡ vec_len self.old.tokens + 1 }
    {
        carried.counted();
        let place = self.first + self.tokens.len() as u64;
        let token = carried.token(self.from.line, place);
        self.tokens.push_reserved(Carried::of(input.lift(token)));
    }

    // Lifts the next tokens, all but the first of these, which were taken.
    #[tactic(auto, using(crate::proofs::Places::placed_at, crate::proofs::Places::same_name))]
    fn put_all(&mut self, input: &Input, tokens: &[Carried], used: usize)
        requires room { vec_len self.old.tokens + (length tokens.now - used) ≤ vec_capacity self.old.tokens }
        requires next { (n : ℕ) × StandFrom (Some (tag_name self.old.from)) n tokens.now × (n + used ≡ self.old.first + vec_len self.old.tokens) }
        requires used { used ≤ length tokens.now }
        requires input { LiftsTo self.old input.now }
        ensures same { SameLifted self.old self.new }
        ensures more { vec_len self.new.tokens + used ≡ vec_len self.old.tokens + length tokens.now }
    {
        for at in used..tokens.len() {
            self.put(input, &tokens[at]);
        }
    }

    // Lifts the tokens of all segments in the deque, whose worker has both rights.
    #[tactic(auto, using(crate::proofs::LaneMoves::empties))]
    fn put_rest(&mut self, input: &Input, worker: &mut LaneWorker<A>)
        requires room { (worker_view worker.old).flushed ≤ self.old.first + vec_capacity self.old.tokens }
        requires worker { HasBothRights (worker_flavor worker.old) (worker_view worker.old) }
        requires next { HasStolen (tag_name self.old.from) (self.old.first + vec_len self.old.tokens) (worker_view worker.old) }
        requires input { LiftsTo self.old input.now }
        ensures same { SameLifted self.old self.new }
        ensures all { self.new.first + vec_len self.new.tokens ≡ (worker_view worker.old).flushed }
    {
        while let Some(segment) = worker.pop_as::<Emptied>() {
            self.put_segment(input, &segment);
        }
    }

    fn put_segment(&mut self, input: &Input, segment: &Segment<A>)
        requires room { vec_len self.old.tokens + size segment.now ≤ vec_capacity self.old.tokens }
        requires next { StandFrom (Some (tag_name self.old.from)) (self.old.first + vec_len self.old.tokens) (tokens_of segment.now) }
        requires input { LiftsTo self.old input.now }
        ensures same { SameLifted self.old self.new }
        ensures more { vec_len self.new.tokens ≡ vec_len self.old.tokens + size segment.now }
    {
        match &segment.alone {
            None => self.put_all(input, segment.tokens.as_slice(), 0),
            Some(token) => self.put(input, token),
        }
    }
}

// Allocates all that settling needs: both ends of a lane that begins where the old one ended, and room for the tokens that weren't
// taken.
fn prepare<A: Allocator + Clone + Drop>(
    sender: &Sender<A>,
    receiver: &Receiver<A>,
    input: &Input,
) -> Result<(Sender<A>, Receiver<A>, Vec<Carried, A>), LaneFault>
    ensures lane { IfOk result (λ p. sender_lane p.0 ≡ receiver_lane p.1) }
    ensures name { IfOk result (λ p. AreEndsNamed (Some (moved_to input.now (tag_name sender.now.tag))) p.0 p.1) }
    ensures start { IfOk result (λ p. HavePassed (sent sender.now) p.0 p.1) }
    ensures dry { IfOk result (λ p. vec_len p.1.current ≡ 0) }
    ensures room { IfOk result (λ p. (p.2.items ≡ []) × (1 ≤ vec_capacity p.2) × (sent sender.now ≤ received receiver.now + vec_capacity p.2)) }
{
    let end = sender.sent();
    let count = end.saturating_sub(receiver.taken()) as usize;
    let tokens = Vec::with_capacity(sender.current.allocator().clone()?, count.max(1))?;
    let alloc = sender.current.allocator().clone()?;
    let (sender, receiver) = lane_from(alloc, &sender.tag, input, sender.tag.line, end)?;
    Ok((sender, receiver, tokens))
}

// Collects the tokens of a lane that weren't taken, lifted to the input.
#[tactic(auto, using(crate::proofs::LaneMoves::merges, crate::proofs::LaneMoves::behind))]
fn gather<A: Allocator + Clone + Drop>(
    sender: Sender<A>,
    receiver: Receiver<A>,
    input: &Input,
    tokens: Vec<Carried, A>,
) -> Vec<Carried, A>
    requires lane { sender_lane sender ≡ receiver_lane receiver }
    requires grown { IsGrown (tag_name sender.tag) input.now }
    requires room { (tokens.items ≡ []) × (sent sender ≤ received receiver + vec_capacity tokens) }
    ensures placed { StandFrom (Some (moved_to input.now (tag_name sender.tag))) (received receiver) result.items }
    ensures all { received receiver + vec_len result ≡ sent sender }
    ensures room { vec_capacity result ≡ vec_capacity tokens }
{
    let taken = receiver.taken();
    let mut worker = sender.worker;
    worker.absorb::<Sides>(receiver.pass);
    let _segments = worker.len_as::<Behind>();
    let mut lifted = Lifted {
        to: tag_by(&sender.tag, input, sender.tag.line, taken),
        from: sender.tag,
        first: taken,
        tokens,
    };
    lifted.put_all(input, receiver.current.as_slice(), receiver.used);
    lifted.put_rest(input, &mut worker);
    lifted.put_all(input, sender.current.as_slice(), 0);
    lifted.tokens
}

/// Moves a lane to an input whose lists begin with those of its own: as many tokens were sent and taken, all that were sent are
/// flushed, and all that weren't taken are in the receiver's hands. If memory is refused, both ends come back as they were.
pub fn settle<A: Allocator + Clone + Drop>(
    sender: Sender<A>,
    receiver: Receiver<A>,
    input: &Input,
) -> Result<(Sender<A>, Receiver<A>), (NoMemory, Sender<A>, Receiver<A>)>
    requires lane { sender_lane sender ≡ receiver_lane receiver }
    requires grown { (n : LaneName) × (sender_name sender ≡ Some n) × IsGrown n input.now }
    ensures lane { IfOk result (λ r. sender_lane r.0 ≡ receiver_lane r.1) }
    ensures name { IfOk result (λ r. (n : LaneName) → sender_name sender ≡ Some n → AreEndsNamed (Some (moved_to input.now n)) r.0 r.1) }
    ensures counts { IfOk result (λ r. (sent r.0 ≡ sent sender) × (flushed r.0 ≡ sent sender) × (received r.1 ≡ received receiver) × (heard r.1 ≡ sent sender)) }
    ensures ready { IfOk result (λ r. received receiver < sent sender → CanTake r.1) }
    ensures refused { IfErr result (λ e. (e.1 ≡ sender) × (e.2 ≡ receiver)) }
{
    let Ok((next, mut behind, tokens)) = prepare(&sender, &receiver, input) else {
        return Err((NoMemory, sender, receiver));
    };
    let taken = receiver.taken();
    let tokens = gather(sender, receiver, input, tokens);
    behind.from = taken;
    behind.current = tokens;
    Ok((next, behind))
}
