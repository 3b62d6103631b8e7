//! What a conversion to another type adds to a handle: a key, and a field for each conversion that
//! changes something.

ghost use Rattle.std.specs.Prelude.{◌≡◌, ◌++◌, ◌&&◌, OnOk, IfOk, map};
ghost use Rattle.mh_convert.specs.Conversion.{is_trivial_ret};
ghost use Rattle.mh_form.specs.Erasure.{basic_of, basic_ret_of};
ghost use Rattle.mh_edit.specs.declared.key.Key.TheVariants.{Convert};
ghost use Rattle.mh_edit.specs.Law.{conv_field, ret_field};
ghost use Rattle.mh_handle.specs.Recipe.{are_trivial, entries_of, ret_entry_of};
ghost use Rattle.mh_handle.specs.Converting.{convs_of, ret_fields_of, convert_fields};

use mh_base::{NoMemory, Seq};
use mh_convert::{Conv, RetConv, Rules};
use mh_edit::{Entries, Key, RetEntry};
use mh_form::{Basic, BasicRet, Field, Fields, shape};
use mh_values::{Classes, MethodTy, Ty, is_type_below};
use std::alloc::Global;

/// Whether no type changes if it is converted to the type at its place in the other list.
fn are_trivial(asked: &[Ty], own: &[Ty], classes: &Classes) -> bool
    ensures { result ≡ are_trivial classes.now asked.now own.now }
{
    let [from, asked @ ..] = asked else {
        return true;
    };
    let [to, own @ ..] = own else {
        return true;
    };
    is_type_below(*from, *to, classes) && are_trivial(asked, own, classes)
}

/// Whether the conversion of a result changes nothing.
fn is_trivial_ret(own: Option<Ty>, asked: Option<Ty>, classes: &Classes) -> bool
    ensures { result ≡ is_trivial_ret classes.now own asked }
{
    match (own, asked) {
        (None, None) => true,
        (Some(from), Some(to)) => is_type_below(from, to, classes),
        _ => false,
    }
}

/// Whether no conversion to the type changes anything, so that no key is added.
pub(crate) fn is_trivial(asked: &MethodTy, own: &MethodTy, classes: &Classes) -> bool
    ensures { result ≡ (are_trivial classes.now asked.now.params own.now.params && is_trivial_ret
        classes.now own.now.ret asked.now.ret) }
{
    are_trivial(asked.params.as_slice(), own.params.as_slice(), classes)
        && is_trivial_ret(own.ret, asked.ret, classes)
}

/// For each parameter its new basic type, or `None` if its conversion changes nothing.
fn push_entries(
    entries: &mut Entries,
    asked: &[Ty],
    own: &[Ty],
    basics: &[Basic],
    classes: &Classes,
) -> Result<(), NoMemory>
    requires { basics.now ≡ map basic_of asked.now }
    ensures { OnOk result (entries.new ≡ entries.old ++ entries_of classes.now asked.now own.now) }
{
    let ([from, asked @ ..], [basic, basics @ ..]) = (asked, basics) else {
        return Ok(());
    };
    let [to, own @ ..] = own else {
        return Ok(());
    };
    if is_type_below(*from, *to, classes) {
        entries.push(None)?;
        push_entries(entries, asked, own, basics, classes)
    } else {
        entries.push(Some(*basic))?;
        push_entries(entries, asked, own, basics, classes)
    }
}

/// What the conversion does with a result.
fn ret_entry(own: Option<Ty>, asked: Option<Ty>, basic: BasicRet, classes: &Classes) -> RetEntry
    requires { basic ≡ basic_ret_of asked }
    ensures { result ≡ ret_entry_of classes.now own asked }
{
    if is_trivial_ret(own, asked, classes) {
        RetEntry::Keep
    } else {
        RetEntry::New(basic)
    }
}

/// The key of the conversions to the type.
pub(crate) fn convert_key(
    alloc: Global,
    asked: &MethodTy,
    own: &MethodTy,
    classes: &Classes,
) -> Result<Key, NoMemory>
    ensures { IfOk result (λ key. key ≡ Convert
        (entries_of classes.now asked.now.params own.now.params)
        (ret_entry_of classes.now own.now.ret asked.now.ret)) }
{
    let shape = shape(alloc, asked)?;
    let mut params = Seq::new(alloc);
    push_entries(
        &mut params,
        asked.params.as_slice(),
        own.params.as_slice(),
        shape.params.as_slice(),
        classes,
    )?;
    let ret = ret_entry(own.ret, asked.ret, shape.ret, classes);
    Ok(Key::Convert { params, ret })
}

/// The field of a conversion by the rules.
fn conv_field<'t>(rules: Rules, conv: Conv) -> Field<'t>
    ensures { result ≡ conv_field rules conv }
{
    match rules {
        Rules::AsType => Field::Conv(conv),
        Rules::Explicit => Field::Explicit(conv),
    }
}

/// The field of a return conversion by the rules.
fn ret_field<'t>(rules: Rules, conv: RetConv) -> Field<'t>
    ensures { result ≡ ret_field rules conv }
{
    match rules {
        Rules::AsType => Field::Ret(conv),
        Rules::Explicit => Field::ExplicitRet(conv),
    }
}

/// The conversions of parameters, from left to right.
fn push_convs<'t>(
    fields: &mut Fields<'t>,
    rules: Rules,
    asked: &[Ty],
    own: &[Ty],
    classes: &Classes,
) -> Result<(), NoMemory>
    ensures { OnOk result (fields.new.items ≡ fields.old.items ++ map (conv_field rules)
        (convs_of classes.now asked.now own.now)) }
{
    let [from, asked @ ..] = asked else {
        return Ok(());
    };
    let [to, own @ ..] = own else {
        return Ok(());
    };
    let (from, to) = (*from, *to);
    if is_type_below(from, to, classes) {
        push_convs(fields, rules, asked, own, classes)
    } else {
        fields.push(conv_field(rules, Conv { from, to }))?;
        push_convs(fields, rules, asked, own, classes)
    }
}

/// The conversion of a result.
fn push_ret<'t>(
    fields: &mut Fields<'t>,
    rules: Rules,
    own: Option<Ty>,
    asked: Option<Ty>,
    classes: &Classes,
) -> Result<(), NoMemory>
    ensures { OnOk result (fields.new.items ≡ fields.old.items ++ ret_fields_of rules classes.now
        own asked) }
{
    if is_trivial_ret(own, asked, classes) {
        return Ok(());
    }
    if let Some(conv) = rules.ret_conversion(own, asked, classes) {
        fields.push(ret_field(rules, conv))?;
    }
    Ok(())
}

/// The fields of the conversions by the rules to the type.
pub(crate) fn convert_fields<'t>(
    alloc: Global,
    rules: Rules,
    asked: &MethodTy,
    own: &MethodTy,
    classes: &Classes,
) -> Result<Fields<'t>, NoMemory>
    ensures { IfOk result (λ fields. fields.items
        ≡ convert_fields rules classes.now asked.now own.now) }
{
    let mut fields = Vec::new(alloc);
    push_convs(
        &mut fields,
        rules,
        asked.params.as_slice(),
        own.params.as_slice(),
        classes,
    )?;
    push_ret(&mut fields, rules, own.ret, asked.ret, classes)?;
    Ok(fields)
}
