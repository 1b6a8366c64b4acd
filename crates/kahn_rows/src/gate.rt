//! A gate that counts who comes, and holds each until others have come.

use crossbeam_utils::Backoff;
use kahn_pool::Gate;
use std::sync::atomic::{AtomicU64, Ordering};

// How many turns a gate waits at most.
const TURNS: u32 = 1_000_000;

/// Whom a gate holds, and until when.
#[derive(Clone, Copy)]
pub enum Hold {
    /// Each, until this many were in the gate at the same time.
    Inside(u64),
    /// Each quantum of two instances, until the other has reached its own with the same number.
    Each,
    /// The first quantum of one of two instances, until the other has reached the quantum with this number.
    First(usize, u64),
}

/// The gate, which may say that it is open.
#[derive(Drop)]
pub struct Counting {
    hold: Hold,
    is_open: bool,
    entries: AtomicU64,
    came: AtomicU64,
    order: AtomicU64,
    inside: AtomicU64,
    most: AtomicU64,
    late: AtomicU64,
}

impl Counting {
    /// Makes a gate to which nobody has come.
    pub fn of(hold: Hold, is_open: bool) -> Counting {
        Counting {
            hold,
            is_open,
            entries: AtomicU64::new(0),
            came: AtomicU64::new(0),
            order: AtomicU64::new(0),
            inside: AtomicU64::new(0),
            most: AtomicU64::new(0),
            late: AtomicU64::new(0),
        }
    }

    /// How many quanta it was entered for.
    pub fn entries(&self) -> u64 {
        self.entries.load(Ordering::SeqCst)
    }

    /// Returns for how many quanta each of 16 instances entered, as digits to the base 16.
    pub fn came(&self) -> u64 {
        self.came.load(Ordering::SeqCst)
    }

    /// Returns which of two instances entered, in order, if one worker runs them: digits to the base 4, from 1.
    pub fn order(&self) -> u64 {
        self.order.load(Ordering::SeqCst)
    }

    /// How many were in it at the same time.
    pub fn most(&self) -> u64 {
        self.most.load(Ordering::SeqCst)
    }

    /// How often it let one go because turns ran out.
    pub fn late(&self) -> u64 {
        self.late.load(Ordering::SeqCst)
    }

    // Whether an instance may go that has come to the quantum of this number, counted from 0.
    fn lets_go(&self, instance: usize, quantum: u64) -> bool {
        let other = digit(self.came(), 1usize.wrapping_sub(instance));
        match self.hold {
            Hold::Inside(wanted) => self.most() >= wanted,
            Hold::Each => other > quantum,
            Hold::First(held, until) => held != instance || quantum > 0 || other >= until,
        }
    }

    // Waits until the instance may go, or turns run out.
    fn wait(&self, instance: usize, quantum: u64) {
        let backoff = Backoff::new();
        for _ in 0..TURNS {
            if self.lets_go(instance, quantum) {
                return;
            }
            backoff.snooze();
        }
        self.late.fetch_add(1, Ordering::SeqCst);
    }
}

// Returns the place of the digit of an instance.
fn place(instance: usize) -> u32 {
    (instance % 16) as u32 * 4
}

// Returns the digit of an instance.
fn digit(digits: u64, instance: usize) -> u64 {
    digits.wrapping_shr(place(instance)) % 16
}

impl Gate for Counting {
    fn enter(&self, instance: usize) {
        let one = 1u64.wrapping_shl(place(instance));
        let quantum = digit(self.came.fetch_add(one, Ordering::SeqCst), instance);
        let order = self.order().wrapping_mul(4);
        let number = (instance as u64).wrapping_add(1);
        self.order
            .store(order.wrapping_add(number), Ordering::SeqCst);
        self.entries.fetch_add(1, Ordering::SeqCst);
        let inside = self.inside.fetch_add(1, Ordering::SeqCst).wrapping_add(1);
        self.most.fetch_max(inside, Ordering::SeqCst);
        self.wait(instance, quantum);
        self.inside.fetch_sub(1, Ordering::SeqCst);
    }

    fn is_open(&self) -> bool {
        self.is_open
    }
}
