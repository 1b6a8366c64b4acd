//! The seats that step on a board.

ghost use Rattle.std.specs.Prelude.{◌≡◌, ℕ, ◌+◌, ◌*◌, ◌^◌, ◌<◌, ◌≤◌, length, Option, None, Some};
ghost use Rattle.std.specs.VecDeque.{deque_capacity};
ghost use Rattle.kahn_board.specs.Plays.{Facts};

use crate::board::{Board, Notes, Reports};
use crate::view::SeatView;
use std::alloc::Global;
use std::collections::VecDeque;
use std::marker::Brand;

pub(crate) type TableSeat<T> = atomic_table::Seat<Option<T>, SeatView>;

/// One worker's access to the board.
#[derive(Drop)]
pub struct Seat<T> {
    pub(crate) seat: TableSeat<T>,
    // The instances in its hands, the one whose slot it took last first.
    pub held: VecDeque<usize, Global>,
    ghost facts: { Facts seat.me seat.table_id held.items (deque_capacity held) },
}

/// How an instance is set down.
#[derive(Clone, Copy)]
pub enum Rest {
    Ready,
    Over,
}

/// The result of a draw.
#[derive(Clone, Copy)]
pub enum Draw {
    Got(u64),
    /// Another step came between.
    Lost,
    Empty,
}

/// The result of a look.
#[derive(Clone, Copy)]
pub enum Look {
    Halted,
    Quiet,
    NoBudget,
    Go,
}

impl<T: Reports> Seat<T> {
    ghost use Rattle.kahn_board.specs.Calls.{Becomes, Claims, IsAtBoard, LooksAt, IsSameSeat, IsFirstSlot, KeepsAll, Swaps, MayLeave, OwesFew, GivesUp, Parks, Publishes, Draws, CountsDown, Looks, downs_of};
    ghost use Rattle.kahn_board.specs.Wires.{TellsEnd, TellsWait};
    ghost use Rattle.kahn_board.specs.declared.seat.Rest.TheVariants.{Over};
    ghost use Rattle.kahn_board.specs.Plays.{Carries, IsIn, after_halting, after_counting_up, after_giving_back, after_reporting};
    ghost use Rattle.atomic_table.specs.Table.{turned as shifted};
    ghost use Rattle.kahn_board.specs.Rule.{belongs, wired};

    /// Whether the instance was ready at some moment of the call. An idle worker looks before it claims, since a claim writes
    /// a word.
    pub fn looks_ready(&mut self, board: &Board<T>, p: usize) -> bool
        requires { IsAtBoard board.now self.old × (p < board.now.instances) }
        ensures { LooksAt T.told T.after board.now.table.shared.key self.old self.new p result }
    {
        let found = board.load::<Notes>(&mut self.seat, 8 * p, 0);
        found == 0
    }

    /// Takes the instance into the seat's hands if it is ready, with its cell at home. `None` if it isn't: then nothing
    /// changes but what the seat knows.
    pub fn claim(&mut self, board: &Board<T>, p: usize) -> Option<()>
        requires { IsAtBoard board.now self.old × (p < board.now.instances) }
        ensures { Claims T.told T.after board.now.table.shared.key self.old self.new p result }
    {
        let found = board.compare_exchange::<Brand>(&mut self.seat, 8 * p, 0, 1);
        if found != 0 {
            return None;
        }
        self.held.push_front_reserved(p);
        Some(())
    }

    // Moves the first slot after the others.
    fn rotate(&mut self)
        requires { 0 < length self.old.held.items }
        ensures { IsSameSeat self.old self.new × (self.new.seat.me ≡ (self.old.seat.me.0, shifted self.old.seat.me.1)) }
    {
        let first = self.held.pop_front().unwrap();
        self.held.push_back_reserved(first);
        self.seat.turn();
    }

    // Moves its slot to the front.
    fn bring_to_front(&mut self, p: usize)
        requires { IsIn self.old.seat.me.0 p }
        ensures same { IsSameSeat self.old self.new × (self.new.seat.me.0 ≡ self.old.seat.me.0) }
        ensures first { IsFirstSlot self.new p }
        ensures kept { KeepsAll self.old self.new }
    {
        while *self.held.front().unwrap() != p {
            self.rotate();
        }
    }

    /// Moves the cell out, the only one that the seat has of the instance.
    pub fn take_cell(&mut self, board: &Board<T>, p: usize) -> T
        requires board { IsAtBoard board.now self.old }
        requires held { IsIn self.old.seat.me.0 p × ((y : T) × Carries self.old.seat.me.1 p (Some y)) }
        ensures swaps { Swaps self.old self.new p (Some result) None }
        ensures only { (y : T) → Carries self.old.seat.me.1 p (Some y) → y ≡ result }
    {
        self.bring_to_front(p);
        board.exchange(&mut self.seat, p, None).unwrap()
    }

    /// Puts the cell back.
    pub fn put_back(&mut self, board: &Board<T>, p: usize, cell: T)
        requires board { IsAtBoard board.now self.old }
        requires held { IsIn self.old.seat.me.0 p × Carries self.old.seat.me.1 p None }
        ensures { Swaps self.old self.new p None (Some cell) }
    {
        self.bring_to_front(p);
        let old = board.exchange(&mut self.seat, p, Some(cell));
        let None = old else { unreachable!() };
    }

    /// Sets the instance down: it is ready again, or over.
    pub fn set_down(&mut self, board: &Board<T>, p: usize, rest: Rest)
        requires board { IsAtBoard board.now self.old }
        requires held { MayLeave T.told T.after board.now.table.shared.key self.old p (λ y. rest ≡ Over → TellsEnd (T.told y)) }
        requires few { OwesFew self.old.seat.me.0 }
        ensures { GivesUp T.told self.old self.new p (downs_of rest) }
    {
        self.bring_to_front(p);
        let new = match rest {
            Rest::Ready => 0,
            Rest::Over => 2,
        };
        board.store::<Brand>(&mut self.seat, 8 * p, new);
        let _ = self.held.pop_front();
    }

    /// Parks the instance on the channel. False only if other than `taken` tokens of it are published.
    pub fn park(&mut self, board: &Board<T>, p: usize, channel: usize, taken: u64) -> bool
        requires board { IsAtBoard board.now self.old }
        requires reads { (channel < board.now.channels) × ((wired board.now.table.shared.key).reader channel ≡ Some p) × (taken < 2 ^ 48) }
        requires held { MayLeave T.told T.after board.now.table.shared.key self.old p (λ y. TellsWait (T.told y) channel taken) }
        requires few { OwesFew self.old.seat.me.0 }
        ensures { Parks T.told T.after board.now.table.shared.key self.old self.new p channel taken result }
    {
        self.bring_to_front(p);
        let word = board.channel_word(channel);
        let found = board.compare_exchange::<Brand>(&mut self.seat, word, 2 * taken, 2 * taken + 1);
        if found != 2 * taken {
            return false;
        }
        let _ = self.held.pop_front();
        true
    }

    /// Publishes `count` tokens of the channel. Returns its reader if it was parked on it: the seat has the reader now.
    pub fn publish(&mut self, board: &Board<T>, channel: usize, count: u64) -> Option<usize>
        requires board { IsAtBoard board.now self.old }
        requires few { (channel < board.now.channels) × (count < 2 ^ 48) }
        requires writer { (q : ℕ) × ((wired board.now.table.shared.key).writer channel ≡ Some q) × IsIn self.old.seat.me.0 q }
        ensures { Publishes T.told (belongs T.after board.now.table.shared.key) (wired board.now.table.shared.key) self.old self.new channel count result }
    {
        let word = board.channel_word(channel);
        let found = board.swap::<Brand>(&mut self.seat, word, 2 * count);
        if found % 2 == 0 {
            return None;
        }
        let Some(reader) = board.readers[channel] else {
            unreachable!()
        };
        self.held.push_front_reserved(reader);
        Some(reader)
    }

    /// Pays the count up that is owed longest.
    pub fn count_up(&mut self, board: &Board<T>)
        requires board { IsAtBoard board.now self.old }
        requires owes { 0 < length self.old.seat.me.0.owed }
        ensures { Becomes (after_counting_up self.old.seat.me.0) self.old self.new }
    {
        board.fetch_add::<Brand>(&mut self.seat, board.count_word(), 1);
    }

    /// Pays a count down.
    pub fn count_down(&mut self, board: &Board<T>)
        requires board { IsAtBoard board.now self.old }
        requires owes { 0 < self.old.seat.me.0.down }
        ensures { CountsDown T.told T.after board.now.table.shared.key self.old self.new }
    {
        board.fetch_sub::<Brand>(&mut self.seat, board.count_word(), 1);
    }

    /// Draws up to `quantum` events from the budget.
    pub fn draw(&mut self, board: &Board<T>, quantum: u64) -> Draw
        requires board { IsAtBoard board.now self.old }
        requires ready { (0 < quantum) × (self.old.seat.me.0.drawn ≡ 0) }
        ensures { Draws T.told T.after board.now.table.shared.key self.old self.new quantum result }
    {
        let word = board.budget_word();
        let found = board.load::<Notes>(&mut self.seat, word, 0);
        if found == 0 {
            return Draw::Empty;
        }
        let n = quantum.min(found);
        if board.compare_exchange::<Brand>(&mut self.seat, word, found, found - n) == found {
            Draw::Got(n)
        } else {
            Draw::Lost
        }
    }

    /// Reports that `n` events of the draw were done. The others may still be done.
    pub fn report_done(&mut self, board: &Board<T>, n: u64)
        requires board { IsAtBoard board.now self.old }
        requires drawn { n ≤ self.old.seat.me.0.drawn }
        ensures { Becomes (after_reporting self.old.seat.me.0 n) self.old self.new }
    {
        board.load::<Brand>(&mut self.seat, board.budget_word(), n);
    }

    /// Gives back `n` events of the draw, which weren't done. The others were.
    pub fn give_back(&mut self, board: &Board<T>, n: u64)
        requires board { IsAtBoard board.now self.old }
        requires drawn { n ≤ self.old.seat.me.0.drawn }
        ensures { Becomes (after_giving_back self.old.seat.me.0 n) self.old self.new }
    {
        board.fetch_add::<Brand>(&mut self.seat, board.budget_word(), n);
    }

    /// Halts the run.
    pub fn halt(&mut self, board: &Board<T>)
        requires board { IsAtBoard board.now self.old }
        ensures { Becomes (after_halting self.old.seat.me.0) self.old self.new }
    {
        board.store::<Brand>(&mut self.seat, board.halted_word(), 1);
    }

    /// Whether there is a reason to leave.
    pub fn look(&mut self, board: &Board<T>) -> Look
        requires board { IsAtBoard board.now self.old }
        ensures { Looks T.told T.after board.now.table.shared.key self.old self.new result }
    {
        if board.load::<Brand>(&mut self.seat, board.halted_word(), 0) != 0 {
            return Look::Halted;
        }
        if board.load::<Brand>(&mut self.seat, board.count_word(), 1) == 0 {
            return Look::Quiet;
        }
        if board.load::<Brand>(&mut self.seat, board.budget_word(), 2) == 0 {
            Look::NoBudget
        } else {
            Look::Go
        }
    }
}
