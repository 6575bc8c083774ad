//! Laws of what compiling promises: each function here does nothing, and its contract is the law.
ghost use Rattle.std.specs.Prelude.{◌≡◌, List};
ghost use Rattle.cmd_tree.specs.declared.tree.Proc.{Proc};
ghost use Rattle.count_sum.specs.declared.counts.Basis.{Basis};
ghost use Rattle.di_compile.specs.declared.refusal.CompileRefusal.{CompileRefusal};
ghost use Rattle.di_compile.specs.declared.refusal.CompileRefusal.TheVariants.{NoMemory};
ghost use Rattle.di_compile.specs.Compiling.{IsBuilt, IsRefused};

/// A command of which a network is built is refused for want of memory alone. Any other is refused, and for
/// one reason.
pub fn compile_law()
    ensures built { (basis : Basis) (ps : List Proc) → IsBuilt basis ps → (refusal : CompileRefusal)
        → IsRefused basis ps refusal → refusal ≡ NoMemory }
    ensures one { (basis : Basis) (ps : List Proc) (a b : CompileRefusal) → IsRefused basis ps a → IsRefused basis ps b
        → (a ≡ NoMemory → ⊥) → (b ≡ NoMemory → ⊥) → a ≡ b }
{}
