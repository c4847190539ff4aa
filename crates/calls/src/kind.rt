// The calls of docs/REPLAY.md, by their numbers there.
ghost use Rattle.std.specs.Prelude.{◌≡◌, pos, ◌≤ℤ◌, MatchResult};
ghost use Rattle.calls.specs.Kind.{number_of};

// A call of the engine.
#[derive(Clone, Copy)]
pub enum Kind {
    Make,
    Sheet,
    CheckKey,
    MakeSwitchingKey,
    CheckBenchKey,
    MakeBenchKey,
    Encrypt,
    Decrypt,
    Xor,
    Not,
    And,
    Plan,
    Evaluate,
    CheckFile,
    PlanFile,
    PrintFile,
    PlanGates,
    EvaluateGates,
}

// No call has the number.
#[derive(Debug, Drop)]
pub struct NoCall;

impl TryFrom<i64> for Kind {
    type Error = NoCall;

    ghost try_from_gives = { λ n r. MatchResult r (λ k. n ≡ pos (number_of k)) (λ _. ¬ ((pos 1 ≤ℤ n) × (n ≤ℤ pos 18))) };

    fn try_from(number: i64) -> Result<Kind, NoCall> {
        match number {
            1 => Ok(Kind::Make),
            2 => Ok(Kind::Sheet),
            3 => Ok(Kind::CheckKey),
            4 => Ok(Kind::MakeSwitchingKey),
            5 => Ok(Kind::CheckBenchKey),
            6 => Ok(Kind::MakeBenchKey),
            7 => Ok(Kind::Encrypt),
            8 => Ok(Kind::Decrypt),
            9 => Ok(Kind::Xor),
            10 => Ok(Kind::Not),
            11 => Ok(Kind::And),
            12 => Ok(Kind::Plan),
            13 => Ok(Kind::Evaluate),
            14 => Ok(Kind::CheckFile),
            15 => Ok(Kind::PlanFile),
            16 => Ok(Kind::PrintFile),
            17 => Ok(Kind::PlanGates),
            18 => Ok(Kind::EvaluateGates),
            _ => Err(NoCall),
        }
    }
}
