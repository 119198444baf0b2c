//! Reads model texts: what a text parses to, or its first fault.
#![tactic(auto)]

mod activity;
mod codes;
mod delay;
mod expression;
mod input;
mod laws;
mod limits;
mod model;
mod output;
mod place;
mod reward;
mod statement;
mod steps;
mod syntax;
mod text;
mod whole;
mod words;

pub use laws::{
    activity_is_read_again, agreeing_texts_are_refused_there_too, block_is_read_again,
    expression_is_read_again, model_is_read_again, reward_is_read_again,
    spots_are_those_of_the_words, statement_is_read_again, syntax_is_read_again,
};
pub use san_base::Op;
pub use syntax::{
    ActDecl, Ast, CaseDecl, Cases, ChildDecl, DistDecl, InputDecl, ModelDecl, OutputDecl,
    PlaceDecl, RewardDecl, ShareDecl, SpanDecl, StmtDecl, Syntax, TermDecl, Timing,
};
pub use text::{ParseFault, Parsed, Refusal, parse, spot};
