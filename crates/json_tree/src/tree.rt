//! JSON values as trees.

use crate::number::Number;

/// A JSON value. Its texts and its lists are borrowed. The members of an object stand in byte order of their
/// names, each name once.
#[derive(Clone, Copy)]
pub enum Tree<'a> {
    Null,
    Bool(bool),
    Number(Number),
    String(&'a str),
    Array(&'a [Tree<'a>]),
    Object(&'a [(&'a str, Tree<'a>)]),
}
