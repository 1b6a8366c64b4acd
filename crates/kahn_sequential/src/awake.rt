//! Hints of a run on one thread: which instances can run, which are far ahead of their readers, and whether there is work for
//! several workers.

ghost use Rattle.std.specs.Prelude.{◌≡◌, ◌<◌, length};

use kahn_code::{Code, Plain};
use kahn_streams::{Network, NoMemory, Outcome};
use std::alloc::Global;
use std::collections::VecDeque;

// A writer is passed over while so many values wait on one of its channels.
const FAR: usize = 1_024;

// So many of the channels of a writer are looked at after a turn of few events, and all after one of many.
const FEW: usize = 8;

const MANY_EVENTS: u64 = 64;

/// The instances that may be able to run, in the order of their turns. A reader that finds its channel empty sleeps until something
/// is sent on it.
/// An instance that is wrongly missing gets its turn in the next round of all; one that is wrongly here does nothing in its turn.
#[derive(Drop)]
pub(crate) struct Awake {
    // The channels that each instance writes: first a few at which a reader was woken last.
    written: Vec<Vec<usize>>,
    // The reader of each channel, if it found it empty.
    sleepers: Vec<Option<usize>>,
    turns: VecDeque<usize>,
    queued: Vec<bool>,
    // A reader that comes before all others, since something was just sent to it; and how many came so, one after another.
    next: Option<usize>,
    handed: usize,
}

// What an event takes, beside the instructions of its turn of a loop.
const EVENT: u64 = 5;

// What an event of a brief turn counts: such turns are only counted together.
const BRIEF_EVENT: u64 = 8;

// A turn of at least so many events isn't brief.
const LONG_TURN: u64 = 64;

// A turn of at least so much work is long: several workers then gain more time than lanes and threads cost.
const LONG: u64 = 1_500;

// A look is over after so much work at least, or a part of all that was done before, but not more than the most. So work for several
// is seen at any time of a run, if it lasts for a while.
const LEAST: u64 = 200_000;

const PART: u64 = 8;

const MOST: u64 = 25_000_000;

// It sees so many long turns, if most is done in such turns; and there is work for several only if the turn goes so often from one
// busy instance to another.
const TURNS: u64 = 32;

const CHANGES: u64 = 16;

// This many instances with long turns are work for several, even if they send one another tokens all the time.
const MANY: usize = 32;

// Instances that do at least so much work for each token that they send one another mostly compute by themselves.
const WORK_A_TOKEN: u64 = 36;

/// What is seen in a look: how much work was done, how much of it in long turns, and by whom.
#[derive(Drop)]
pub(crate) struct Looks {
    // The work of an event of each instance.
    costs: Vec<u64>,
    // How many events a brief turn has at most; none of those is long. How many events were left after the last other turn, and how much was
    // done in those.
    pub(crate) most: u64,
    pub(crate) left: u64,
    done: u64,
    // How much was done and how many tokens were sent before the look, and when it may be over.
    from: u64,
    sent: u64,
    next: u64,
    // How much was done in long turns, how many these were, who had the last one, how often another one than before had one, and how many
    // had them in their order: now, and at most.
    long: u64,
    turns: u64,
    busy: usize,
    changes: u64,
    in_order: usize,
    most_in_order: usize,
    // How many instances had work in the last look, if that was work for several.
    pub(crate) wide: usize,
}

fn written_by(alloc: Global, network: &Network) -> Result<Vec<Vec<usize>>, NoMemory> {
    let mut written = Vec::with_capacity(alloc, network.instances())?;
    for _ in 0..network.instances() {
        written.push(Vec::new(alloc))?;
    }
    for channel in 0..network.channels() {
        if let Some(side) = network.writer(channel) {
            if let Some(channels) = written.get_mut(side.instance) {
                channels.push(channel)?;
            }
        }
    }
    Ok(written)
}

impl Awake {
    pub(crate) fn new(alloc: Global, network: &Network) -> Result<Awake, NoMemory> {
        Ok(Awake {
            written: written_by(alloc, network)?,
            sleepers: vec![in alloc; None; network.channels()]?,
            turns: VecDeque::with_capacity(alloc, network.instances())?,
            queued: vec![in alloc; false; network.instances()]?,
            next: None,
            handed: 0,
        })
    }

    // The instance goes on when its turn comes, after all that are in the queue.
    fn wake(&mut self, instance: usize) {
        if let Some(queued) = self.queued.get_mut(instance) {
            if !*queued {
                *queued = self.turns.push_back(instance).is_ok();
            }
        }
    }

    pub(crate) fn wake_all(&mut self) {
        for instance in 0..self.queued.len() {
            self.wake(instance);
        }
    }

    // The instance reads what was just sent: it goes on before all others, unless another one does, or as many as there are instances
    // did so one after another.
    #[inline(always)]
    fn hand(&mut self, instance: usize) {
        if self.next.is_none() && self.handed < self.queued.len() {
            self.next = Some(instance);
        } else {
            self.wake(instance);
        }
    }

    /// Notes the state of an instance: it can run, or it sleeps until something is sent on a channel that is empty.
    pub(crate) fn note_status(
        &mut self,
        instance: usize,
        outcome: Outcome,
        queues: &Plain<Global>,
    ) {
        match outcome {
            Outcome::More => self.wake(instance),
            Outcome::Waits(channel) if queues.waiting(channel) > 0 => self.wake(instance),
            Outcome::Waits(channel) => {
                if let Some(sleeper) = self.sleepers.get_mut(channel) {
                    *sleeper = Some(instance);
                }
            }
            Outcome::Ended | Outcome::Faulted(_) => {}
        }
    }

    /// Whose turn it is; nobody's if all sleep.
    pub(crate) fn next(&mut self, queues: &Plain<Global>) -> Option<usize> {
        if let Some(reader) = self.next.take() {
            self.handed = self.handed.saturating_add(1);
            return Some(reader);
        }
        self.handed = 0;
        let Some(instance) = self.turns.pop_front() else {
            return self.next_of_all(queues);
        };
        if let Some(queued) = self.queued.get_mut(instance) {
            *queued = false;
        }
        Some(instance)
    }

    // A reader that slept at a channel that wasn't looked at.
    fn next_of_all(&mut self, queues: &Plain<Global>) -> Option<usize> {
        for writer in 0..self.written.len() {
            self.wake_between(writer, FEW, usize::MAX, queues);
        }
        self.next.take()
    }

    /// Wakes the sleeping readers of this writer's channels on which something waits after its turn of `done` events.
    /// If there are many channels, a turn of few events looks at a few of them; the others are looked at when all sleep.
    pub(crate) fn wake_readers(&mut self, writer: usize, done: u64, queues: &Plain<Global>) {
        let to = if done < MANY_EVENTS { FEW } else { usize::MAX };
        self.wake_between(writer, 0, to, queues);
    }

    // Wakes readers at the channels of this writer between these places, and puts those among the few.
    #[inline(always)]
    fn wake_between(&mut self, writer: usize, from: usize, to: usize, queues: &Plain<Global>) {
        let Some(channels) = self.written.get(writer) else {
            return;
        };
        for place in from..to.min(channels.len()) {
            if let Some(reader) = self.sleeper_at(writer, place, queues) {
                self.hand(reader);
                if place >= FEW {
                    self.bring_forward(writer, place);
                }
            }
        }
    }

    #[inline(always)]
    fn sleeper_at(&mut self, writer: usize, place: usize, queues: &Plain<Global>) -> Option<usize> {
        let channel = *self.written.get(writer)?.get(place)?;
        if queues.waiting(channel) == 0 {
            return None;
        }
        self.sleepers.get_mut(channel)?.take()
    }

    fn bring_forward(&mut self, writer: usize, place: usize) {
        let few = place % FEW;
        if let Some(channels) = self.written.get_mut(writer) {
            if few < place && place < channels.len() {
                channels.swap(place, few);
            }
        }
    }

    pub(crate) fn is_ahead(&self, instance: usize, queues: &Plain<Global>) -> bool {
        let Some(channels) = self.written.get(instance) else {
            return false;
        };
        for channel in channels {
            if queues.waiting(*channel) >= FAR {
                return true;
            }
        }
        false
    }
}

/// Returns how many tokens were sent on all channels between processes, plus the number of input values.
pub(crate) fn sent_on(network: &Network, queues: &Plain<Global>) -> u64 {
    let mut sum = 0_u64;
    for channel in 0..network.channels() {
        sum = sum.saturating_add(queues.taken(channel));
        sum = sum.saturating_add(queues.waiting(channel) as u64);
    }
    sum
}

impl Looks {
    /// Nothing was done. In a turn of its loop an instance has an event for each of its channels, and one more.
    pub(crate) fn new(alloc: Global, network: &Network, code: &Code) -> Result<Looks, NoMemory>
        requires { code.now.network.value ≡ network.now }
    {
        let mut costs = Vec::with_capacity(alloc, network.instances())?;
        let mut most = EVENT;
        for instance in 0..network.instances() {
            let channels = network.instance(instance).arguments.len() as u64;
            let work = code.length(instance) as u64 / channels.saturating_add(1).max(1);
            let cost = work.saturating_add(EVENT);
            most = cost.max(most);
            costs.push(cost)?;
        }
        Ok(Looks {
            costs,
            most: (LONG / most.max(1)).min(LONG_TURN).saturating_sub(1),
            left: 0,
            done: 0,
            from: 0,
            sent: 0,
            next: LEAST,
            long: 0,
            turns: 0,
            busy: 0,
            changes: 0,
            in_order: 0,
            most_in_order: 0,
            wide: 0,
        })
    }

    /// Notes a turn of `done` events that isn't brief, after which `left` events are left: the events since the last such turn were
    /// done in brief turns.
    /// Returns whether the look is over. A few turns that are very long show too little.
    pub(crate) fn note_turn(&mut self, instance: usize, done: u64, left: u64) -> bool {
        let Some(cost) = self.costs.get(instance) else {
            return false;
        };
        let work = done.wrapping_mul(*cost);
        let brief = self.left.wrapping_sub(left).wrapping_sub(done);
        self.left = left;
        self.done = self.done.wrapping_add(work);
        self.done = self.done.wrapping_add(brief.wrapping_mul(BRIEF_EVENT));
        if work >= LONG {
            self.long = self.long.saturating_add(work);
            self.turns = self.turns.saturating_add(1);
            let is_other = self.busy != instance;
            self.changes = self.changes.saturating_add(u64::from(is_other));
            if self.busy >= instance {
                self.in_order = 0;
            }
            self.in_order = self.in_order.saturating_add(1);
            self.most_in_order = self.most_in_order.max(self.in_order);
            self.busy = instance;
        }
        self.next <= self.done && (TURNS <= self.turns || !self.is_long())
    }

    fn work(&self) -> u64 {
        self.done.saturating_sub(self.from)
    }

    // Whether most was done in long turns.
    fn is_long(&self) -> bool {
        self.work() / 2 < self.long
    }

    // Whether most was done in long turns of several instances, which sent few tokens beside the work, or are many: if a few send one
    // another tokens all the time, several threads lose more than they gain.
    fn sees_work(&self, sent: u64) -> bool {
        let tokens = sent.saturating_sub(self.sent);
        self.is_long()
            && CHANGES <= self.changes
            && (MANY <= self.most_in_order || tokens <= self.work() / WORK_A_TOKEN)
    }

    /// Sets the next look, when `sent` tokens have been sent in all.
    pub(crate) fn turn(&mut self, sent: u64) {
        let is_wide = self.sees_work(sent);
        self.wide = if is_wide { self.most_in_order } else { 0 };
        self.from = self.done;
        self.sent = sent;
        let length = (self.done / PART).max(LEAST).min(MOST);
        self.next = self.done.saturating_add(length);
        self.long = 0;
        self.turns = 0;
        self.changes = 0;
        self.in_order = 0;
        self.most_in_order = 0;
    }
}
