//! Forms that passes make: the root of a leaf, and the root with parameters more.
ghost use Rattle.std.specs.Prelude.{◌≡◌, ◌+◌, ◌≤◌, false, IfOk, IsTrue};
ghost use Rattle.mh_form.specs.declared.body.FormBody.{FormBody};
ghost use Rattle.mh_edit.specs.Fit.{fits, is_nothing};
ghost use Rattle.mh_handle.specs.Form.{body_of};
ghost use Rattle.mh_handle.specs.Passes.{IsPassOf};

use mh_base::{NoMemory, Seq};
use mh_edit::Key;
use mh_form::{Basic, BasicRet, Shape};
use mh_handle::{EditError, Form, FormPass, FormTable};
use std::alloc::Global;
use std::sync::Wait;

/// This many basic types I.
fn ints(alloc: Global, count: u32) -> Result<Seq<Basic>, NoMemory> {
    let mut basics = Seq::new(alloc);
    for _ in 0..count {
        basics.push(Basic::I)?;
    }
    Ok(basics)
}

/// The form of a leaf that takes this many ints and returns nothing.
pub(crate) fn root<'t, R: Wait>(
    rt: &R,
    alloc: Global,
    table: &'t FormTable,
    pass: &mut FormPass<'t>,
    count: u32,
) -> Result<&'t Form, EditError>
    requires pass { IsPassOf table.now pass.old }
    requires room { 1 ≤ pass.old.seat.room }
    ensures table { pass.new.table ≡ pass.old.table }
    ensures room { pass.old.seat.room ≤ pass.new.seat.room + 1 }
    ensures made { IfOk result (λ form. is_nothing (body_of form.now.recipe) ≡ false) }
{
    let shape = Shape {
        params: ints(alloc, count)?,
        ret: BasicRet::V,
    };
    table.edit(rt, alloc, pass, table.base(), Key::LeafRoot { shape })
}

/// The key that takes this many ints more, first of all. It fits each form that was made.
pub(crate) fn more_ints(alloc: Global, count: u32) -> Result<Key, NoMemory>
    ensures { IfOk result (λ key. (body : FormBody) → is_nothing body ≡ false
        → IsTrue (fits key body)) }
{
    Ok(Key::Add {
        pos: 0,
        basics: ints(alloc, count)?,
    })
}
