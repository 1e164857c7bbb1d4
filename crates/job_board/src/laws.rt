// Laws of batch texts.
ghost use Rattle.std.specs.Prelude.{◌≡◌, ◌⊎◌, ℕ, List};
ghost use Rattle.tile_io.specs.declared.mark.Mark.{Mark};
ghost use Rattle.tile_io.specs.declared.fault.Cause.{Cause};
ghost use Rattle.job_board.specs.declared.job.Job.{Job as JobValue};
ghost use Rattle.job_board.specs.BatchText.{FaultBatch, IsFaultyBatch, IsReadBatch, ReadsBatch};

/// Each text, from each start, either reads as one batch or has one fault.
pub fn law_batch_text()
    ensures one { (text : List ℕ) (from : Mark) →
        IsReadBatch text from ⊎ IsFaultyBatch text from }
    ensures not_both { (text : List ℕ) (from : Mark) (jobs : List JobValue) (number : ℕ)
        (cause : Cause) → ReadsBatch text from jobs → FaultBatch text from number cause → ⊥ }
    ensures one_batch { (text : List ℕ) (from : Mark) (jobs others : List JobValue) →
        ReadsBatch text from jobs → ReadsBatch text from others → jobs ≡ others }
    ensures one_fault { (text : List ℕ) (from : Mark) (m n : ℕ) (a b : Cause) →
        FaultBatch text from m a → FaultBatch text from n b → (m ≡ n) × (a ≡ b) }
{}
