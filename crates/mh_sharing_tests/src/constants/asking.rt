//! A pass that is asked for a constant, and what it answers.

ghost use Rattle.std.specs.Prelude.{◌≡◌, IfOk, OnOk};
ghost use Rattle.mh_seats.specs.Room.{limit};
ghost use Rattle.mh_tickets.specs.Seats.{new_seat};
ghost use Rattle.mh_sharing_tests.specs.Built.{CanResolve};

use crate::constants::broken::Broken;
use mh_condy::{Const, ConstPass, ConstRun, ConstSeat, ConstTable, ConstValue};
use mh_values::{ClassId, Exc, Num, Value};
use std::sync::Wait;

/// The most constants that a table may have here.
const MOST: usize = 16_384;

const TOO_LONG: Broken = Broken::Fixture("a table of more than 16,384 constants");

/// What is recorded of a constant: a number, or an error by its class and that of its cause.
#[derive(Clone, Copy, Debug, PartialEq, Eq)]
pub enum Recorded {
    Number(i64),
    Error(ClassId, Option<ClassId>),
    Other,
}

/// What a pass answers: the serial of the attempt by which the constant is resolved, and what is
/// recorded.
pub type Answer = (u64, Recorded);

fn error(exc: &Exc) -> Recorded {
    Recorded::Error(exc.class(), exc.cause().map(|cause| cause.class))
}

/// What a pass answers by a constant.
pub fn answer_of<J: ConstRun>(node: &Const<'_, J>) -> Answer {
    let recorded = match node.value() {
        ConstValue::Value(Value::Boxed(Num::J(number))) => Recorded::Number(*number),
        ConstValue::Value(_) => Recorded::Other,
        ConstValue::Error(exc) => error(exc),
    };
    (node.serial(), recorded)
}

/// Resolves a constant.
pub fn resolve<'s, 't, J: ConstRun, R: Wait>(
    rt: &R,
    table: &'s ConstTable<'t, J>,
    pass: &mut ConstPass<'s, 't, J>,
    constant: u32,
) -> Result<Answer, Broken>
    requires { CanResolve table.now pass.old }
    ensures table { pass.new.table ≡ pass.old.table }
    ensures can { OnOk result (CanResolve table.now pass.new) }
{
    if constant as usize >= table.len() {
        return Err(Broken::Fixture("a constant that is not in the table"));
    }
    Ok(answer_of(table.resolve_const(rt, pass, constant)?))
}

/// The first pass of a table.
pub fn first_pass<'s, 't, J: ConstRun>(
    table: &'s ConstTable<'t, J>,
    seat: ConstSeat,
) -> Result<ConstPass<'s, 't, J>, Broken>
    requires { seat ≡ new_seat table.now.serials limit }
    ensures { IfOk result (CanResolve table.entry.now) }
{
    if table.len() > MOST {
        return Err(TOO_LONG);
    }
    Ok(table.first_pass(seat)?)
}

/// Two passes of a table.
pub fn two_passes<'s, 't, J: ConstRun>(
    table: &'s ConstTable<'t, J>,
    seat: ConstSeat,
) -> Result<(ConstPass<'s, 't, J>, ConstPass<'s, 't, J>), Broken>
    requires { seat ≡ new_seat table.now.serials limit }
    ensures one { IfOk result (λ passes. CanResolve table.entry.now passes.0) }
    ensures two { IfOk result (λ passes. CanResolve table.entry.now passes.1) }
{
    if table.len() > MOST {
        return Err(TOO_LONG);
    }
    let mut one = table.first_pass(seat)?;
    let two = table.split(&mut one, 1)?;
    Ok((one, two))
}
