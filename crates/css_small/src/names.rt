//! What may be named at a place.
ghost use Rattle.std.specs.Prelude.{◌≡◌, ◌-◌, ◌≤◌, [], ◌∷◌, ◌++◌, length, bytes_eq, true, false, IfOk, OnOk, OnErr, IsErrOf};
ghost use Rattle.std.specs.List.{list_any};
ghost use Rattle.css_small.specs.Names.{reserved, with_object, in_main, in_function, is_in_main, variable_of, is_parameter, function_of, is_among, is_fresh, may_declare, may_define};

use crate::name_set::NameSet;
use crate::tree_fault::TreeFault;
use std::alloc::Global;
use std::marker::Model;

/// The most variables that a function has.
const MOST_VARIABLES: u32 = 1000;

/// The keywords of C99 (6.4.1) and the library's functions.
const RESERVED: [&[u8]; 43] = [
    b"auto",
    b"break",
    b"case",
    b"char",
    b"const",
    b"continue",
    b"default",
    b"do",
    b"double",
    b"else",
    b"enum",
    b"extern",
    b"float",
    b"for",
    b"goto",
    b"if",
    b"inline",
    b"int",
    b"long",
    b"register",
    b"restrict",
    b"return",
    b"short",
    b"signed",
    b"sizeof",
    b"static",
    b"struct",
    b"switch",
    b"typedef",
    b"union",
    b"unsigned",
    b"void",
    b"volatile",
    b"while",
    b"_Bool",
    b"_Complex",
    b"_Imaginary",
    b"getchar",
    b"putchar",
    b"puts",
    b"malloc",
    b"free",
    b"printf",
];

/// What may be named in a function's body: its objects, a parameter first, and the functions before it. Contracts see the record.
#[derive(Drop)]
pub(crate) struct Names {
    parameters: u32,
    objects: NameSet,
    functions: NameSet,
}

impl Model for Names {
    ghost use Rattle.std.specs.Prelude.{ℕ, ◌+◌, ◌≤◌, length};
    ghost use Rattle.css_small.specs.Names.{Names as Scope};

    ghost Value = { Scope };

    ghost view = { λ names. record { parameters = names.parameters; objects = names.objects; functions = names.functions } };

    ghost invariant = { λ names. (names.parameters ≤ 1) × (names.parameters ≤ length names.objects) × (length names.objects ≤ names.parameters + 1000) };
}

impl Names {
    /// What may be named at the front of main's body, behind these functions. Takes no memory.
    pub(crate) fn in_main(alloc: Global, functions: NameSet) -> Names
        ensures { result ≡ in_main functions }
    {
        Names {
            parameters: 0,
            objects: NameSet::new(alloc),
            functions,
        }
    }

    /// What may be named at the front of the body of a function with this parameter. `NotSmall` comes only where it may not be
    /// declared.
    pub(crate) fn in_function(alloc: Global, parameter: &[u8]) -> Result<Names, TreeFault>
        ensures ok { IfOk result (λ names. (names ≡ in_function parameter.now) × (is_fresh [] parameter.now ≡ true)) }
        ensures not_small { IsErrOf result TreeFault.NotSmall → is_fresh [] parameter.now ≡ false }
    {
        let mut objects = NameSet::new(alloc);
        if !is_fresh(&objects, parameter) {
            return Err(TreeFault::NotSmall);
        }
        objects.add(alloc, parameter)?;
        Ok(Names {
            parameters: 1,
            objects,
            functions: NameSet::new(alloc),
        })
    }

    /// Whether the place is in main.
    pub(crate) fn is_in_main(&self) -> bool
        ensures { result ≡ is_in_main self.now }
    {
        self.parameters == 0
    }

    /// How many variables are declared.
    pub(crate) fn variables(&self) -> u32
        ensures value { result ≡ length self.now.objects - self.now.parameters }
        ensures few { result ≤ 1000 }
    {
        self.objects.count() - self.parameters
    }

    /// The number of the variable of this name, if there is one.
    pub(crate) fn variable_of(&self, name: &[u8]) -> Option<u32>
        ensures { result ≡ variable_of self.now name.now }
    {
        let number = self.objects.number_of(name)?;
        if number < self.parameters {
            None
        } else {
            Some(number)
        }
    }

    /// Whether this is the parameter's name.
    pub(crate) fn is_parameter(&self, name: &[u8]) -> bool
        ensures { result ≡ is_parameter self.now name.now }
    {
        match self.objects.number_of(name) {
            Some(number) => number < self.parameters,
            None => false,
        }
    }

    /// The number of the function of this name, if there is one that no object hides.
    pub(crate) fn function_of(&self, name: &[u8]) -> Option<u32>
        ensures { result ≡ function_of self.now name.now }
    {
        if self.objects.contains(name) {
            return None;
        }
        self.functions.number_of(name)
    }

    /// Declares a variable, and gives its number. `NotSmall` comes only where it may not be declared. An error changes nothing.
    pub(crate) fn declare(&mut self, alloc: Global, name: &[u8]) -> Result<u32, TreeFault>
        ensures ok { IfOk result (λ number. (may_declare self.old name.now ≡ true) × (number ≡ length self.old.objects)
            × (self.new ≡ with_object self.old name.now)) }
        ensures not_small { IsErrOf result TreeFault.NotSmall → may_declare self.old name.now ≡ false }
        ensures unchanged { OnErr result (self.new ≡ self.old) }
    {
        if self.variables() >= MOST_VARIABLES || !is_fresh(&self.objects, name) {
            return Err(TreeFault::NotSmall);
        }
        let number = self.objects.count();
        self.objects.add(alloc, name)?;
        Ok(number)
    }
}

/// Declares a function behind these. `NotSmall` comes only where it may not be defined. An error changes nothing.
pub(crate) fn define(alloc: Global, before: &mut NameSet, name: &[u8]) -> Result<(), TreeFault>
    ensures ok { OnOk result ((may_define before.old name.now ≡ true) × (before.new ≡ before.old ++ name.now ∷ [])) }
    ensures not_small { IsErrOf result TreeFault.NotSmall → may_define before.old name.now ≡ false }
    ensures unchanged { OnErr result (before.new ≡ before.old) }
{
    if name == b"main".as_slice() || before.count() == u32::MAX || !is_fresh(before, name) {
        return Err(TreeFault::NotSmall);
    }
    before.add(alloc, name)
}

/// Whether a name may be declared behind these.
fn is_fresh(names: &NameSet, name: &[u8]) -> bool
    ensures { result ≡ is_fresh names.now name.now }
{
    !is_reserved(name) && !names.contains(name)
}

/// Whether no name may be these bytes.
fn is_reserved(name: &[u8]) -> bool
    ensures { result ≡ is_among reserved name.now }
{
    is_listed(&RESERVED, name)
}

/// Whether a name is among some words.
fn is_listed(words: &[&[u8]], name: &[u8]) -> bool
    ensures { result ≡ list_any (λ word. bytes_eq word.now name.now) words.now }
{
    words.iter().any(|word| *word == name)
}
