//! The law of the language.

ghost use Rattle.std.specs.Prelude.{◌≡◌, ◌↔◌, ℕ, List};
ghost use Rattle.job_script.specs.declared.line.Line.{Line};
ghost use Rattle.job_script.specs.declared.fault.JobCause.{JobCause};
ghost use Rattle.job_script.specs.Grammar.{Good, Faulty, verdict};
ghost use Rattle.job_script.specs.Language.{IsJobText, IsFirstFault};

/// What is found of a text is that its lines say the lines of a job, or its first fault. It does nothing: this is the
/// law.
pub fn language()
    ensures job { (text : List ℕ) (said : List Line) → (verdict text ≡ Good said) ↔ IsJobText text said }
    ensures fault { (text : List ℕ) (n : ℕ) (cause : JobCause) →
        (verdict text ≡ Faulty n cause) ↔ IsFirstFault text n cause }
{}
