//! Lists.
ghost use Rattle.std.specs.Prelude.{◌≡◌, [], ◌∷◌, ◌++◌, IfOk};

use css_base::NoMemory;
use std::alloc::Global;
use std::marker::Model;

/// A list. Contracts see its elements in order.
#[derive(Drop)]
pub struct Items<T> {
    elements: Vec<T>,
}

impl<T> Model for Items<T> {
    ghost use Rattle.std.specs.Prelude.{List};

    ghost Value = { List T };

    ghost view = { λ l. l.elements.items };
}

impl<T> Items<T> {
    /// A list of these elements. Takes no memory.
    pub fn new(elements: Vec<T>) -> Items<T>
        ensures { result ≡ elements.items }
    {
        Items { elements }
    }

    /// Lends the elements in order.
    pub fn as_slice(&self) -> &[T]
        ensures { result.now ≡ self.now }
    {
        self.elements.as_slice()
    }

    /// Gives the elements back. Takes no memory.
    pub fn into_vec(self) -> Vec<T>
        ensures { result.items ≡ self }
    {
        self.elements
    }

    /// A list of nothing. Takes no memory.
    pub fn none(alloc: Global) -> Items<T>
        ensures { result ≡ [] }
    {
        Items {
            elements: Vec::new(alloc),
        }
    }
}

impl<T: Drop> Items<T> {
    /// With an element behind the others. The only error is want of memory.
    pub fn with(self, element: T) -> Result<Items<T>, NoMemory>
        ensures { IfOk result (λ more. more ≡ self ++ element ∷ []) }
    {
        let mut elements = self.elements;
        elements.push(element)?;
        Ok(Items { elements })
    }
}
