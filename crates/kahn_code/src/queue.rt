//! The plain queue of a channel, and those of all channels at the start of a run and for more input.

ghost use Rattle.std.specs.Prelude.{◌≡◌, ◌<◌, ◌≤◌, ◌+◌, ◌-◌, ◌^◌, length, slice_get, IfSome, IfNone, IsTrue, IsFalse, OnOk, OnErr, IsOk, Some, map, IfOk, ℕ};
ghost use Rattle.kahn_code.specs.Common.{network_of, role_at, Input as InputRole, Channel, AreInputsExtended, IsOf, Holds, Names, Lists, inputs_of, Follow, action_row, form_row, codes};
ghost use Rattle.kahn_code.specs.{Lines.AreFirst, Lines.IsFirst, Lines.HasMore, Lines.Waiting, inner.Gone.AreBehind, inner.Gone.AreGivenFrom, inner.Gone.queue_in, inner.Gone.regrown};
ghost use Rattle.std.specs.VecDeque.{deque_len, deque_capacity};

use kahn_streams::{About, Input, Line, Network, NoMemory, Queued, Role, Token, Value, Word};
use std::alloc::Allocator;
use std::collections::VecDeque;
use std::marker::Model;

/// The tokens of a channel that were put and not taken, in place order, each as its value alone; behind them, of an input channel, the
/// values that are read where the input has them.
#[derive(Drop)]
pub struct Queue<'i, A: Allocator> {
    network: About<Network>,
    input: About<Input>,
    channel: usize,
    taken: u64,
    tokens: VecDeque<Queued, A>,
    given: &'i [Value],
    // Nothing: one multiplication by eleven words finds a queue, where one by nine takes two instructions more.
    _words: [u64; 2],
}

impl<'i, A: Allocator> Model for Queue<'i, A> {
    ghost Value = { Waiting };

    ghost coded = { Prim.hlevel (codes, action_row.coded, form_row.coded) };

    ghost view = { λ q. queue_in q.network.value q.input.value q.channel q.taken q.tokens.items q.given.now (deque_capacity q.tokens - deque_len q.tokens) };

    ghost invariant = { λ q. AreBehind q.network.value q.input.value q.channel q.taken q.tokens.items q.given.now (deque_capacity q.tokens) };
}

impl<'i, A: Allocator> Queue<'i, A> {
    // The queue of a channel from which nothing was taken, of the network and the input that are named.
    fn new(
        alloc: A,
        _network: &Network,
        _input: &Input,
        channel: usize,
        given: &'i [Value],
    ) -> Result<Queue<'i, A>, NoMemory>
        ghost names: { Names }
        requires { AreGivenFrom names.network names.input channel 0 given.now }
        ensures names { IfOk result (λ q. (q.network ≡ names.network) × (q.input ≡ names.input) × (q.channel ≡ channel)) }
        ensures first { IfOk result (λ q. (q.taken ≡ 0) × (q.waiting ≡ length given.now)) }
    {
        let mut tokens = VecDeque::new(alloc);
        tokens.reserve(1)?;
        Ok(Queue {
            network: About::named(),
            input: About::named(),
            channel,
            taken: 0,
            tokens,
            given,
            _words: [0, 0],
        })
    }

    // Whether there is a token. Where none is left, the first of the values that are read where the input has them becomes one: it goes by
    // the tokens, so that there is one place from which a token is copied.
    #[inline(always)]
    fn bring_token(&mut self) -> bool
        ensures more { HasMore 0 self.old self.new }
        ensures spare { 0 < self.old.spare → self.new ≡ self.old }
        ensures some { IsTrue result → self.new.lent < self.new.waiting }
        ensures none { IsFalse result → (self.new ≡ self.old) × (self.old.waiting ≡ 0) }
    {
        if !self.tokens.is_empty() {
            return true;
        }
        let Some((value, rest)) = self.given.split_first() else {
            return false;
        };
        self.given = rest;
        let line = Line::Channel(self.channel);
        let word = Word::of(*value);
        let first = Queued::of(named_token(&self.network, &self.input, line, self.taken, word));
        self.tokens.push_back_reserved(first);
        true
    }

    /// The token of the next place. None if none waits. Never allocates.
    #[tactic(auto, using(crate::proofs::Begin::given_on, crate::proofs::Begin::one_more))]
    pub fn take(&mut self) -> Option<Token>
        requires { self.old.taken < 2 ^ 48 }
        ensures names { (self.new.network ≡ self.old.network) × (self.new.input ≡ self.old.input) × (self.new.channel ≡ self.old.channel) }
        ensures token { IfSome result (λ t. IsOf self.old.network self.old.input t × (t.line ≡ Channel self.old.channel) × (t.place ≡ self.old.taken)) }
        ensures moved { IfSome result (λ _. (self.new.taken ≡ self.old.taken + 1) × (self.new.waiting + 1 ≡ self.old.waiting)) }
        ensures spare { IfSome result (λ _. 0 < self.old.spare → self.new.spare ≡ self.old.spare + 1) }
        ensures none { IfNone result ((self.new ≡ self.old) × (self.old.waiting ≡ 0)) }
    {
        if !self.bring_token() {
            return None;
        }
        let line = Line::Channel(self.channel);
        let place = self.taken;
        // It is counted first, so that nothing is written between its way out of the queue and where the caller puts it.
        self.taken += 1;
        let carried = self.tokens.pop_front().unwrap();
        let token = carried.token(line, place);
        Some(lift(&self.network, &self.input, token, line, place))
    }

    /// Goes on for an input whose lists begin with those of its own. Never allocates.
    pub fn regrow(&mut self)
        ghost input: { Lists }
        requires { AreInputsExtended (inputs_of self.old.input) (inputs_of input) }
        ensures { self.new ≡ record self.old { input = input } }
    {
        self.input = About::named();
    }

    /// Makes room for one token more. If there is room already, it never allocates, and so never fails.
    #[inline(always)]
    pub fn room(&mut self) -> Result<(), NoMemory>
        requires { role_at (network_of self.old.network) self.old.channel ≡ InputRole → ⊥ }
        ensures more { HasMore 0 self.old self.new }
        ensures room { OnOk result (0 < self.new.spare) }
        ensures full { OnErr result (self.new.spare ≡ 0) }
        ensures spare { 0 < self.old.spare → IsOk result × (self.new ≡ self.old) }
    {
        if self.tokens.len() < self.tokens.capacity() {
            return Ok(());
        }
        let _grown = self.tokens.reserve(1);
        if self.tokens.len() < self.tokens.capacity() {
            return Ok(());
        }
        Err(NoMemory)
    }

    /// Puts the token of the next place. Never allocates.
    #[tactic(auto, using(crate::proofs::Begin::begin_push, crate::proofs::Begin::given_nowhere, crate::proofs::Begin::one_less, crate::proofs::Begin::pushed_place, kahn_streams::proofs::Token_lists::follow_push))]
    pub fn put(&mut self, token: Token)
        requires room { 0 < self.old.spare }
        requires names { IsOf self.old.network self.old.input token }
        requires line { token.line ≡ Channel self.old.channel }
        requires place { token.place ≡ self.old.taken + self.old.waiting }
        ensures more { HasMore 1 self.old self.new }
        ensures spare { self.new.spare + 1 ≡ self.old.spare }
    {
        self.tokens.push_back_reserved(Queued::of(token));
    }

    /// How many tokens wait.
    pub fn len(&self) -> usize
        ensures { result ≡ self.now.waiting }
    {
        self.tokens.len() + self.given.len()
    }

    /// How many tokens were taken.
    pub fn taken(&self) -> u64
        ensures { result ≡ self.now.taken }
    {
        self.taken
    }

    /// The waiting token before which so many wait, which stays. Never allocates.
    pub fn waits(&self, number: usize) -> Token
        requires { number < self.now.waiting }
        ensures names { IsOf self.now.network self.now.input result }
        ensures here { (result.line ≡ Channel self.now.channel) × (result.place ≡ self.now.taken + number) }
    {
        let line = Line::Channel(self.channel);
        if number >= self.tokens.len() {
            let word = Word::of(self.given[number - self.tokens.len()]);
            let place = self.taken + number as u64;
            return named_token(&self.network, &self.input, line, place, word);
        }
        let carried = &self.tokens[number];
        carried.counted();
        let place = self.taken + number as u64;
        let token = carried.token(line, place);
        lift(&self.network, &self.input, token, line, place)
    }

    /// Makes room for so many tokens more. If there is room already, it never allocates.
    pub fn room_for(&mut self, count: usize) -> Result<(), NoMemory>
        ensures more { HasMore 0 self.old self.new }
        ensures room { OnOk result (count ≤ self.new.spare) }
    {
        let given = self.given;
        self.tokens.reserve(given.len().saturating_add(count))?;
        self.given = &[];
        give_all(self, given);
        Ok(())
    }

    /// Puts the value of the next place of an input channel. Never allocates.
    pub fn give(&mut self, value: Value)
        requires room { 0 < self.old.spare }
        requires input { role_at (network_of self.old.network) self.old.channel ≡ InputRole }
        requires here { slice_get (inputs_of self.old.input self.old.channel) (self.old.taken + self.old.waiting) ≡ Some value }
        requires few { self.old.taken + self.old.waiting < 2 ^ 64 }
        ensures more { HasMore 1 self.old self.new }
        ensures spare { self.new.spare + 1 ≡ self.old.spare }
    {
        let line = Line::Channel(self.channel);
        let place = self.taken + self.tokens.len() as u64;
        let token = named_token(&self.network, &self.input, line, place, Word::of(value));
        self.put(token);
    }
}

fn lift(network: &About<Network>, input: &About<Input>, token: Token, line: Line, at: u64) -> Token
    requires names { (token.network.value ≡ network.now.value) × AreInputsExtended (inputs_of token.input.value) (inputs_of input.now.value) }
    requires here { (token.line ≡ line) × (token.place ≡ at) }
    ensures here { (result.line ≡ line) × (result.place ≡ at) }
    ensures names { IsOf network.now.value input.now.value result }
{
    let value = token.word();
    named_token(network, input, line, at, value)
}

fn named_token(
    _network: &About<Network>,
    _input: &About<Input>,
    line: Line,
    place: u64,
    value: Word,
) -> Token
    ghost names: { Names }
    requires { Holds names.network names.input line place value }
    ensures here { (result.line ≡ line) × (result.place ≡ place) × (result.value ≡ value) }
    ensures names { IsOf names.network names.input result }
{
    Token::of_word(line, place, value)
}

// The queue of a channel, with the tokens of the channel's list where it is an input channel: read where an input that is lent has them.
fn first_queue<'i, A: Allocator + Copy + Drop>(
    alloc: A,
    network: &Network,
    input: &Input,
    lent: &Option<&'i Input>,
    channel: usize,
) -> Result<Queue<'i, A>, NoMemory>
    requires here { channel < length (network_of network.now).channels }
    requires lent { IfSome lent.now (λ i. i.now ≡ input.now) }
    ensures { IfOk result (IsFirst network.now input.now channel) }
{
    if network.channel(channel).role != Role::Input {
        return Queue::new(alloc, network, input, channel, &[]);
    }
    if let Some(lists) = lent {
        let given = lists.list(channel);
        return Queue::new(alloc, network, input, channel, given);
    }
    let mut queue = Queue::new(alloc, network, input, channel, &[])?;
    let values = input.list(channel);
    queue.room_for(values.len())?;
    give_all(&mut queue, values);
    Ok(queue)
}

/// The queue of each channel before anything was taken or put: an input channel has its whole list. The values are read where an input that
/// is lent has them.
#[tactic(auto, using(crate::proofs::Lists::none_first, crate::proofs::Queued::one_queue, crate::proofs::Queued::all_queues))]
pub fn first_queues<'i, A: Allocator + Copy + Drop>(
    alloc: A,
    network: &Network,
    input: &Input,
    lent: Option<&'i Input>,
) -> Result<Vec<Queue<'i, A>, A>, NoMemory>
    requires { IfSome lent (λ i. i.now ≡ input.now) }
    ensures { IfOk result (λ queues. AreFirst network.now input.now queues.items) }
{
    let mut queues = Vec::new(alloc);
    for channel in 0..network.channels() {
        queues.push(first_queue(alloc, network, input, &lent, channel)?)?;
    }
    Ok(queues)
}

/// All queues go on for an input whose lists begin with those of their own. Never allocates.
pub(crate) fn regrow_all<A: Allocator>(queues: &mut Vec<Queue<'_, A>, A>)
    ghost input: { Lists }
    requires { (c : ℕ) (w : Waiting) → slice_get queues.old.items c ≡ Some w → AreInputsExtended (inputs_of w.input) (inputs_of input) }
    ensures { queues.new.items ≡ map (regrown input) queues.old.items }
{
    for number in 0..queues.len() {
        queues[number].regrow();
    }
}

/// Puts values that stand in the list of an input channel from the next place on. Never allocates.
pub(crate) fn give_all<A: Allocator>(queue: &mut Queue<'_, A>, values: &[Value])
    requires room { length values.now ≤ queue.old.spare }
    requires given { AreGivenFrom queue.old.network queue.old.input queue.old.channel (queue.old.taken + queue.old.waiting) values.now }
    ensures more { HasMore (length values.now) queue.old queue.new }
    ensures spare { queue.new.spare + length values.now ≡ queue.old.spare }
{
    for number in 0..values.len() {
        queue.give(values[number]);
    }
}
