//! Workers that run concurrently, each in a thread.

ghost use Rattle.std.specs.Prelude.{◌≡◌, ⊤, IfOk, vec_len};
ghost use Rattle.mq_serve.specs.Prelude.{AllZip};

use std::alloc::AllocError;
use std::sync::Wait;
use std::thread;
use std::thread::Threads;
use std::time::Clock;

/// A job that is divided into parts, which workers do concurrently.
pub trait Workers {
    /// The part of one worker.
    type Part;

    /// The result of a part.
    type Outcome;

    /// The relation of a part to its result.
    ghost does: { Self → Self.Part → Self.Outcome → Type 0 } = { λ _ _ _. ⊤ };

    /// Does one part.
    fn run_one<R: Wait + Clock>(&self, rt: &R, part: Self::Part) -> Self::Outcome
        ensures { does self.now part result };
}

/// Runs two jobs concurrently, each as [`run_all`] does.
pub fn run_both<H: Workers + Sync, K: Workers + Sync, R: Threads + Wait + Clock + Sync>(
    rt: &R,
    one: &H,
    parts: Vec<H::Part>,
    other: &K,
    others: Vec<K::Part>,
) -> (
    Result<Vec<H::Outcome>, AllocError>,
    Result<Vec<K::Outcome>, AllocError>,
)
where
    H::Part: Send + Drop,
    H::Outcome: Send + Drop,
    K::Part: Send + Drop,
    K::Outcome: Send + Drop,
    ensures one { IfOk result.0 (λ outcomes. vec_len outcomes ≡ vec_len parts) }
    ensures other { IfOk result.1 (λ outcomes. vec_len outcomes ≡ vec_len others) }
    ensures one_done { IfOk result.0 (λ outcomes.
        AllZip (H.does one.now) parts.items outcomes.items) }
    ensures other_done { IfOk result.1 (λ outcomes.
        AllZip (K.does other.now) others.items outcomes.items) }
{
    thread::join(
        rt,
        move || run_all(rt, one, parts),
        move || run_all(rt, other, others),
    )
}

/// Runs each part in its own thread. Returns the outcomes in the order of the parts.
///
/// If a thread can't be created, parts run one after another. Parts that wait for each other then
/// deadlock.
pub fn run_all<H: Workers + Sync, R: Threads + Wait + Clock + Sync>(
    rt: &R,
    job: &H,
    parts: Vec<H::Part>,
) -> Result<Vec<H::Outcome>, AllocError>
where
    H::Part: Send + Drop,
    H::Outcome: Send + Drop,
    ensures count { IfOk result (λ outcomes. vec_len outcomes ≡ vec_len parts) }
    ensures done { IfOk result (λ outcomes. AllZip (H.does job.now) parts.items outcomes.items) }
{
    thread::map_vec(rt, parts, &|part| job.run_one(rt, part))
}
