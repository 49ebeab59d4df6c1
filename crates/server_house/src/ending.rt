//! Stages of a server's end.

ghost use Rattle.std.specs.Prelude.{◌≡◌, ◌↔◌, ℕ, IsTrue, max};
ghost use Rattle.server_house.specs.declared.ending.ShutdownStage.{ShutdownStage};
ghost use Rattle.server_house.specs.declared.ending.ShutdownStage.TheVariants.{Drain, Lanes, Sessions};
ghost use Rattle.server_house.specs.Stages.{HasBegun, stage_number};

use std::sync::atomic::{AtomicU64, Ordering};

/// A stage of the end.
#[derive(Clone, Copy, Debug, PartialEq, Eq)]
pub enum ShutdownStage {
    /// No more sessions are admitted, and each present one ends once no transfer of it runs.
    Drain,
    /// The present sessions end at once.
    Sessions,
    /// The lanes and rounds end too: no session is left.
    Lanes,
}

/// The progress of a server to its end. It never goes back.
#[derive(Drop)]
pub struct ServerShutdown {
    // 0 at first, then the number of the last stage that has begun
    word: AtomicU64,
}

fn number(stage: ShutdownStage) -> u64
    ensures number { result ≡ stage_number stage }
{
    match stage {
        ShutdownStage::Drain => 1,
        ShutdownStage::Sessions => 2,
        ShutdownStage::Lanes => 3,
    }
}

// Returns whether the progress has come to a stage.
fn reaches(progress: u64, stage: ShutdownStage) -> bool
    ensures begun { IsTrue result ↔ HasBegun progress stage }
{
    progress >= number(stage)
}

/// No stage has begun at first. A stage has begun once the progress is at least its number, and none is taken back by
/// the beginning of another. Once the lanes are to end, the sessions are too, and once these are, no more are admitted.
pub fn stages_stay_begun()
    ensures none { (stage : ShutdownStage) → ¬ HasBegun 0 stage }
    ensures begun { (progress : ℕ) (stage : ShutdownStage) →
        HasBegun (max progress (stage_number stage)) stage }
    ensures stays { (progress : ℕ) (stage next : ShutdownStage) → HasBegun progress stage →
        HasBegun (max progress (stage_number next)) stage }
    ensures order { (progress : ℕ) → HasBegun progress Lanes → HasBegun progress Sessions }
    ensures drained { (progress : ℕ) → HasBegun progress Sessions → HasBegun progress Drain }
{}

impl ServerShutdown {
    /// A server that is not to end yet.
    pub fn new() -> ServerShutdown {
        ServerShutdown {
            word: AtomicU64::new(0),
        }
    }

    /// Begins a stage.
    pub fn begin(&self, stage: ShutdownStage) {
        self.word.fetch_max(number(stage), Ordering::SeqCst);
    }

    /// Returns whether a stage has begun.
    pub fn has_begun(&self, stage: ShutdownStage) -> bool {
        reaches(self.word.load(Ordering::SeqCst), stage)
    }
}
