ghost use Rattle.std.specs.Prelude.{◌≡◌, ◌++◌, [], ◌∷◌, IfOk, OnOk};
ghost use Rattle.nest_scope.specs.Occurrences.{bound, with_bound, unbound};
ghost use Rattle.nest_scope.specs.Restored.{restored};

use crate::occurrences::Binding;
use nest_syntax::NoMemory;
use std::alloc::Global;
use std::marker::Model;

/// What each name of a program is bound to, by the number of the name.
#[derive(Debug, Drop)]
pub(crate) struct Scope {
    bindings: Vec<Binding>,
}

impl Model for Scope {
    ghost use Rattle.std.specs.Prelude.{List};
    ghost use Rattle.nest_scope.specs.declared.occurrences.Binding.{Binding};

    ghost Value = { List Binding };

    ghost view = { λ s. s.bindings.items };
}

/// The bindings that the declarations of a block shadow, in their order.
#[derive(Debug, Drop)]
pub(crate) struct Shadowed {
    bindings: Vec<(u32, Binding)>,
}

impl Model for Shadowed {
    ghost use Rattle.std.specs.Prelude.{List, ℕ};
    ghost use Rattle.nest_scope.specs.declared.occurrences.Binding.{Binding};

    ghost Value = { List (ℕ × Binding) };

    ghost view = { λ c. c.bindings.items };
}

impl Scope {
    /// A scope for so many names, in which none is bound.
    pub(crate) fn unbound(alloc: Global, names: usize) -> Result<Scope, NoMemory>
        ensures { IfOk result (λ made. made ≡ unbound names) }
    {
        Ok(Scope {
            bindings: vec![in alloc; Binding::Unbound; names]?,
        })
    }

    pub(crate) fn bound(&self, name: u32) -> Binding
        ensures { result ≡ bound self.now name }
    {
        self.bindings
            .get(name as usize)
            .copied()
            .unwrap_or(Binding::Unbound)
    }

    pub(crate) fn bind(&mut self, name: u32, to: Binding)
        ensures { self.new ≡ with_bound self.old name to }
    {
        if (name as usize) < self.bindings.len() {
            self.bindings[name as usize] = to;
        }
    }

    /// Binds a name until its block ends.
    pub(crate) fn declare(
        &mut self,
        name: u32,
        to: Binding,
        shadowed: &mut Shadowed,
    ) -> Result<(), NoMemory>
        ensures bound { OnOk result (self.new ≡ with_bound self.old name to) }
        ensures shadowed { OnOk result (restored shadowed.new self.new ≡ restored shadowed.old self.old) }
    {
        shadowed.push(name, self.bound(name))?;
        self.bind(name, to);
        Ok(())
    }
}

impl Shadowed {
    pub(crate) fn new(alloc: Global) -> Shadowed
        ensures { result ≡ [] }
    {
        Shadowed {
            bindings: Vec::new(alloc),
        }
    }

    fn push(&mut self, name: u32, binding: Binding) -> Result<(), NoMemory>
        ensures { OnOk result (self.new ≡ self.old ++ (name, binding) ∷ []) }
    {
        self.bindings.push((name, binding))?;
        Ok(())
    }

    /// Puts the shadowed bindings back at the end of the block, the last one first.
    pub(crate) fn restore(&mut self, scope: &mut Scope)
        ensures { scope.new ≡ restored self.old scope.old }
    {
        while let Some((name, binding)) = self.bindings.pop() {
            scope.bind(name, binding);
        }
    }
}
