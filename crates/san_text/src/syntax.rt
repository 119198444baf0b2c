//! The syntax of a model text.

use san_base::{Boxed, Items, Name, Op};

/// A model text: its version, its models in order, the system's name, and its rewards.
#[derive(Debug, Drop)]
pub struct Syntax {
    pub version: u64,
    pub models: Items<ModelDecl>,
    pub system: Name,
    pub rewards: Items<RewardDecl>,
}

/// An atomic model, a join of children, or a number of copies of one model.
#[derive(Debug, Drop)]
pub enum ModelDecl {
    Atomic {
        name: Name,
        places: Items<PlaceDecl>,
        acts: Items<ActDecl>,
    },
    Join {
        name: Name,
        children: Items<ChildDecl>,
        shares: Items<ShareDecl>,
    },
    Rep {
        name: Name,
        of: Name,
        times: u64,
        shares: Items<Name>,
    },
}

/// A place. `length` is that of an array; an initial value that isn't written is None.
#[derive(Debug, Drop)]
pub struct PlaceDecl {
    pub name: Name,
    pub length: Option<u64>,
    pub initial: Option<u64>,
}

/// An activity. One without timing is instantaneous, and only such a one has a priority.
#[derive(Debug, Drop)]
pub struct ActDecl {
    pub name: Name,
    pub priority: Option<u64>,
    pub inputs: Items<InputDecl>,
    pub timing: Option<Timing>,
    pub cases: Cases,
}

/// A delay, with an activation and a reactivation predicate where they are written.
#[derive(Debug, Drop)]
pub struct Timing {
    pub delay: DistDecl,
    pub pair: Option<(Ast, Ast)>,
}

/// An input arc with its weight, or an input gate with its predicate and function.
#[derive(Debug, Drop)]
pub enum InputDecl {
    Arc(Name, Option<u64>),
    Gate(Ast, Items<StmtDecl>),
}

/// An output arc with its weight, or an output gate's function.
#[derive(Debug, Drop)]
pub enum OutputDecl {
    Arc(Name, Option<u64>),
    Body(Items<StmtDecl>),
}

/// One case of weight 1, or cases with weights.
#[derive(Debug, Drop)]
pub enum Cases {
    Plain(Items<OutputDecl>),
    Weighted(Items<CaseDecl>),
}

#[derive(Debug, Drop)]
pub struct CaseDecl {
    pub weight: Ast,
    pub outputs: Items<OutputDecl>,
}

/// A distribution of delays. A table's entries are delays with their weights.
#[derive(Debug, Drop)]
pub enum DistDecl {
    Det(Ast),
    Uniform(Ast, Ast),
    Geom(u64, u64),
    Table(Items<(u64, u64)>),
}

/// An assignment to a place, one to a cell of an array by its index, or a branch.
#[derive(Debug, Drop)]
pub enum StmtDecl {
    Set(Name, Ast),
    SetCell(Name, Ast, Ast),
    If(Ast, Items<StmtDecl>, Items<StmtDecl>),
}

/// A child of a join, and the model that it is an instance of.
#[derive(Debug, Drop)]
pub struct ChildDecl {
    pub name: Name,
    pub of: Name,
}

/// A shared place, with its parts: a child and a place of it each.
#[derive(Debug, Drop)]
pub struct ShareDecl {
    pub name: Name,
    pub parts: Items<(Name, Name)>,
}

#[derive(Debug, Drop)]
pub struct RewardDecl {
    pub name: Name,
    pub atomic: Name,
    pub span: SpanDecl,
    pub terms: Items<TermDecl>,
}

/// The ticks of an interval, summed up or averaged, or one tick.
#[derive(Debug, Drop)]
pub enum SpanDecl {
    Over(u64, u64),
    Mean(u64, u64),
    At(u64),
}

/// A rate reward, or an impulse reward of an activity.
#[derive(Debug, Drop)]
pub enum TermDecl {
    Rate(Ast),
    Impulse(Name, Ast),
}

/// An expression. `Cell` has the array and the index; `Group` is a pair of round brackets.
#[derive(Debug, Drop)]
pub enum Ast {
    Number(u64),
    Name(Name),
    Cell(Name, Boxed<Ast>),
    Neg(Boxed<Ast>),
    Not(Boxed<Ast>),
    Binary(Op, Boxed<Ast>, Boxed<Ast>),
    Group(Boxed<Ast>),
}
