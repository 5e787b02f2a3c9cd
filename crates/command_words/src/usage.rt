//! The line that tells which words are jobs.
ghost use Rattle.std.specs.Prelude.{◌≡◌};
ghost use Rattle.command_words.specs.Usage.{usage_line};

/// Which words are jobs, in one line without its end.
pub fn usage_line() -> &'static str
    ensures { result.now ≡ usage_line }
{
    "usage: synth METRIC BOUND CONFLICTS IN STEM, certify METRIC BOUND CONFLICTS IN APPROX STEM, refine METRIC BOUND CONFLICTS IN START STEM, check METRIC BOUND IN STEM, confirm METRIC BOUND IN STEM, flat IN OUT, aag IN OUT, blif IN OUT, trim METRIC BOUND IN STEM OUT, or demo WIDTH BOUND CONFLICTS"
}
