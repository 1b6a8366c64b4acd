//! The programs of the tests, and how they are run.

use kahn_check::{Network, check};
use kahn_pool::{Config, Gate};
use kahn_report::work;
use kahn_syntax::parse;
use std::alloc::{AllocError, Global};
use std::hash::RandomState;
use std::random::RandomSource;
use std::sync::Wait;
use std::test::Fail;
use std::thread::Threads;

/// A bound that no run reaches if it ends.
pub const AMPLE: u64 = 1_000_000;

/// Counts to 3.
pub const COUNT: &str = "\
begin integer output channel W;
  process count(integer out W; integer N);
  begin integer I; while I < N do begin send I on W; I := I + 1 end end;
  count(W, 3)
end
";

/// Two counts to 3, side by side.
pub const TWO_COUNTS: &str = "\
begin integer output channel V, W;
  process count(integer out W; integer N);
  begin integer I; while I < N do begin send I on W; I := I + 1 end end;
  count(V, 3) par count(W, 3)
end
";

/// Four processes in a cycle, one of which ends.
pub const FOUR_TURNS: &str = "\
begin integer channel X, Y, Z, T1, T2;
  process f(integer in U, V; integer out W);
  begin integer I, N; logical B;
    B := true;
    while N < 4 do begin
      I := if B then wait(U) else wait(V); print I; send I on W; B := not B; N := N + 1
    end
  end;
  process g(integer in U; integer out V, W);
  begin integer I; logical B;
    B := true;
    repeat begin I := wait(U); if B then send I on V else send I on W; B := not B end
  end;
  process h(integer in U; integer out V; integer INIT);
  begin send INIT on V; repeat send wait(U) on V end;
  f(Y, Z, X) par g(X, T1, T2) par h(T1, Y, 0) par h(T2, Z, 1)
end
";

/// Adds the greatest number to its input.
pub const TOP: &str = "\
begin integer input channel A; integer output channel B;
  process top(integer in U; integer out W);
  begin repeat send 9223372036854775807 + wait(U) on W end;
  top(A, B)
end
";

/// Reads two inputs in turn.
pub const ALTERNATE: &str = "\
begin integer input channel A, B;
  process alt(integer in U, V); begin integer I; repeat begin I := wait(U); I := wait(V) end end;
  alt(A, B)
end
";

/// A division by zero, and a process that copies what was sent before it.
pub const DIVISION: &str = "\
begin integer channel X; integer output channel W;
  process d(integer out W);
  begin integer I; I := 2; while true do begin send 6 div I on W; I := I - 1 end end;
  process copy(integer in U; integer out W); begin repeat send wait(U) on W end;
  d(X) par copy(X, W)
end
";

/// Negates logical values.
pub const INVERT: &str = "\
begin logical input channel A; logical output channel B;
  process inv(logical in U; logical out W); begin repeat send not wait(U) on W end;
  inv(A, B)
end
";

/// Prints the sum of two inputs.
pub const ADD: &str = "\
begin integer input channel A, B;
  process add(integer in U, V); begin print wait(U) + wait(V) end;
  add(A, B)
end
";

/// Copies its input to a channel, and from there to its output.
pub const COPIES: &str = "\
begin integer input channel A; integer channel X; integer output channel B;
  process copy(integer in U; integer out W); begin repeat send wait(U) on W end;
  copy(A, X) par copy(X, B)
end
";

/// A process that sends a value, and one that prints it.
pub const HANDED_ON: &str = "\
begin integer channel X;
  process s(integer out W); begin send 1 on W end;
  process c(integer in U); begin print wait(U) end;
  s(X) par c(X)
end
";

/// Makes a configuration.
pub fn config(workers: u64, quantum: u64, bound: u64) -> Config {
    Config {
        workers,
        quantum,
        bound,
        watch: None,
    }
}

/// Returns the network of a program text.
pub fn network_of<R: RandomSource>(rt: &R, alloc: Global, program: &str) -> Result<Network, Fail> {
    Ok(check(alloc, RandomState::new(rt)?, parse(alloc, program)?)?)
}

/// Returns the report of a program without an input, by `workers` workers with a quantum and a bound.
pub fn reported<R: RandomSource + Threads + Wait + Sync, G: Gate + Sync>(
    rt: &R,
    alloc: Global,
    program: &str,
    (workers, quantum, bound): (u64, u64, u64),
    gate: &G,
) -> Result<String, Fail> {
    let config = config(workers, quantum, bound);
    let mut written = Vec::new(alloc);
    let seed = RandomState::new(rt)?;
    work(rt, alloc, seed, program, "", config, gate, &mut written)?;
    Ok(String::from_utf8(written)?)
}

/// Makes `number` instances of a process with this body.
pub fn instances(alloc: Global, number: u64, body: &str) -> Result<String, AllocError> {
    let mut text = format!(in alloc; "begin process p(); begin {body} end; p()")?;
    for _ in 1..number {
        text.push_str(" par p()")?;
    }
    text.push_str(" end")?;
    Ok(text)
}
