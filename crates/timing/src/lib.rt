// How long tasks take.
#![tactic(auto)]

ghost use Rattle.std.specs.Prelude.{IfOk};

use std::io;
use std::time::{Duration, Instant};

/// What a task gives, and how long it took.
pub fn timed<T: Drop, F: FnOnce() -> T>(rt: &HostRuntime, task: F) -> io::Result<(T, Duration)>
    requires { F.IsAlwaysCallable task }
    ensures { IfOk result (λ p. F.post task p.0) }
{
    let start = Instant::now(rt)?;
    let given = task();
    let taken = start.elapsed(rt)?;
    Ok((given, taken))
}
