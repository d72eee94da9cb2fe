//! Rules, words and answers by examples, where no line and no exchange shows them.

mod answers;
mod rules;
mod words;
