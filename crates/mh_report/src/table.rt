use mh_base::Seq;
use mh_values::{Exc, MethodTy, Value};

/// What an attempt linked at a call site.
#[derive(Debug, Drop)]
pub enum Shown {
    /// A target of this type, which all calls of the site call.
    Linked(MethodTy),
    /// The error that all calls of the site throw.
    Error(Exc),
}

/// What is recorded at a call site.
#[derive(Debug, Drop)]
pub struct Recorded {
    /// The serial of the attempt that linked the site, counted from 1.
    pub serial: u64,
    /// What that attempt linked.
    pub shown: Shown,
}

/// What is recorded at each call site of a run, by the sites' numbers. A site that no call names
/// has nothing recorded.
pub type Table = Seq<Option<Recorded>>;

/// What is recorded of a dynamic constant.
#[derive(Debug, Drop)]
pub struct ConstRow {
    /// The serial of the attempt that resolved the constant, counted from 1 over all constants.
    pub serial: u64,
    /// The value, a number in its box, or the error that all get who ask for the constant.
    pub value: Result<Value, Exc>,
}

/// What is recorded of each dynamic constant of a run, by the constants' numbers. Nothing is
/// recorded of a constant that no attempt asks.
pub type ConstRows = Seq<Option<ConstRow>>;
