ghost use Rattle.std.specs.Prelude.{◌≡◌, ◌↔◌, ℕ, Option, Some, None, IfOk, IfErr};
ghost use Rattle.nest_syntax.specs.declared.names.Line.{Line};
ghost use Rattle.nest_syntax.specs.declared.tree.Program.{Program};
ghost use Rattle.nest_syntax.specs.Named.{IsWellNamed};
ghost use Rattle.nest_check.specs.Broken.{IsBroken};
ghost use Rattle.nest_check.specs.Answered.{IsRefused};
ghost use Rattle.nest_check.specs.Kept.{KeepsRules};

use crate::checked::Checked;
use crate::judge::judge;
use crate::refused::CheckRefused;
use nest_syntax::Program;
use std::alloc::Global;

/// The program, checked, where it keeps all rules. Else the lowest rule that it breaks, at the lowest line that breaks
/// it; the program is dropped then.
pub fn check(alloc: Global, program: Program) -> Result<Checked, CheckRefused>
    requires { IsWellNamed program }
    ensures same { IfOk result (λ checked. checked ≡ program) }
    ensures kept { IfOk result (λ checked. IsBroken program None) }
    ensures refused { IfErr result (IsRefused program) }
{
    let judgement = judge(alloc, &program)?;
    if let Some((rule, line)) = judgement.broken {
        return Err(CheckRefused::Rule { rule, line });
    }
    Ok(Checked::tabled(alloc, program, judgement.scalars.as_slice())?)
}

/// A program breaks one lowest rule at one lowest line, or it keeps all rules, and never both.
pub fn one_judgement()
    ensures broken { (program : Program) (found other : Option (ℕ × Line)) → IsBroken program found → IsBroken program other → found ≡ other }
    ensures kept { (program : Program) → IsBroken program None ↔ KeepsRules program }
    ensures never_both { (program : Program) (rule : ℕ) (line : Line) → IsBroken program (Some (rule, line)) → KeepsRules program → ⊥ }
{}
