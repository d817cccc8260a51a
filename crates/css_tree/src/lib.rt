//! The tree of a program.
#![tactic(auto)]

mod declaration;
mod directive;
mod expression;
mod item;
mod operators;
mod scope;
mod statement;
mod words;

pub use declaration::{Declaration, Declarator, Initialiser};
pub use directive::{Argument, Clause, Directive, Mark};
pub use expression::Expression;
pub use item::{Item, Parameter, Parameters, Tree};
pub use operators::{AssignOperator, BinaryOperator, UnaryOperator};
pub use scope::Scope;
pub use statement::{Block, Entry, ForStart, Statement};
pub use words::{Qualifier, Specifier, Star, TypeName};
