//! Why a command is not compiled.
use di_grammar::Broken;
use std::alloc::AllocError;

/// Why a command is not compiled.
#[derive(Debug, Clone, Copy, PartialEq, Eq)]
pub enum CompileRefusal {
    /// It breaks this rule.
    Broken(Broken),
    /// It is admitted, and no network of it is built today in this basis.
    NotThisForm,
    /// It is admitted, and its network would have so many components, more than a network may have.
    TooManyComponents { count: u64 },
    NoMemory,
}

impl From<AllocError> for CompileRefusal {
    ghost use Rattle.std.specs.Prelude.{◌≡◌};
    ghost use Rattle.di_compile.specs.declared.refusal.CompileRefusal.{CompileRefusal};

    ghost from_gives = { λ _ refusal. refusal ≡ CompileRefusal.NoMemory };

    fn from(_error: AllocError) -> CompileRefusal {
        CompileRefusal::NoMemory
    }
}
