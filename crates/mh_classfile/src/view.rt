ghost use Rattle.std.specs.Prelude.{◌≡◌, [], ◌<◌, length, None, Some, slice_get, slice_index_or, IfSome, ◌+◌, ◌*◌, ◌^◌};
ghost use Rattle.std.specs.Int.{cast_signed, w64};
ghost use Rattle.mh_class_pool.specs.Entries.{slot, text};
ghost use Rattle.mh_classfile.specs.Class.{class_name, name_at, reference, member_of, handle, constant_at, argument, called, computed, dynamic_view, number_of, site_view};

use crate::bootstraps::Bootstraps;
use crate::constant::{Constant, DynamicView, HandleRef, Named, SiteView};
use crate::site::{Site, Sites};
use mh_class_bytes::Text;
use mh_class_pool::{Entry, Pool};
use std::marker::Model;

/// A class whose texts are borrowed from its file. It keeps places in the file, so each call looks
/// its answer up, without searching, and takes no memory.
#[derive(Drop)]
pub struct ClassView<'b> {
    pub(crate) pool: Pool<'b>,
    pub(crate) sites: Sites,
    pub(crate) bootstraps: Bootstraps,
}

impl<'b> Model for ClassView<'b> {
    ghost use Rattle.mh_classfile.specs.Class.{Class, class_of};

    ghost Value = { Class };

    ghost view = { λ v. class_of v.pool v.sites.sites v.bootstraps.closed };
}

fn class_name<'b>(pool: &Pool<'b>, index: u16) -> Text<'b>
    ensures { result ≡ class_name pool.now index }
{
    match pool.get(index as usize) {
        Some((_, Entry::Class(name))) => pool.text(name),
        _ => Text::empty(),
    }
}

fn nothing_named<'b>() -> Named<'b>
    ensures { result ≡ record { name = []; descriptor = [] } }
{
    Named {
        name: Text::empty(),
        descriptor: Text::empty(),
    }
}

fn named<'b>(pool: &Pool<'b>, index: u16) -> Named<'b>
    ensures { result ≡ name_at pool.now index }
{
    match pool.get(index as usize) {
        Some((_, Entry::NameAndType(name, descriptor))) => Named {
            name: pool.text(name),
            descriptor: pool.text(descriptor),
        },
        _ => nothing_named(),
    }
}

fn reference<'b>(kind: u8, owner: Text<'b>, named: Named<'b>) -> HandleRef<'b>
    ensures { result ≡ reference kind owner.entry named.entry }
{
    HandleRef {
        kind,
        owner,
        name: named.name,
        descriptor: named.descriptor,
    }
}

fn member<'b>(pool: &Pool<'b>, kind: u8, index: u16) -> HandleRef<'b>
    ensures { result ≡ member_of pool.now kind (slot pool.now index) }
{
    match pool.get(index as usize) {
        Some(
            (
                _,
                Entry::Fieldref(class, name)
                | Entry::Methodref(class, name)
                | Entry::InterfaceMethodref(class, name),
            ),
        ) => reference(kind, class_name(pool, class), named(pool, name)),
        _ => reference(kind, Text::empty(), nothing_named()),
    }
}

fn handle<'b>(pool: &Pool<'b>, index: u16) -> HandleRef<'b>
    ensures { result ≡ handle pool.now index }
{
    match pool.get(index as usize) {
        Some((_, Entry::MethodHandle(kind, reference))) => member(pool, kind, reference),
        _ => reference(0, Text::empty(), nothing_named()),
    }
}

fn long(high: u32, low: u32) -> i64
    ensures { result ≡ cast_signed w64 (2 ^ 32 * high + low) }
{
    (0x1_0000_0000 * high as u64 + low as u64).cast_signed()
}

/// The bootstrap method of a Dynamic entry, and what is named there.
fn computed<'b>(pool: &Pool<'b>, index: u16) -> (u16, Named<'b>)
    ensures { result ≡ computed pool.now (slot pool.now index) }
{
    match pool.get(index as usize) {
        Some((_, Entry::Dynamic(bootstrap, name))) => (bootstrap, named(pool, name)),
        _ => (0, nothing_named()),
    }
}

/// What the Dynamic entry at an index says.
fn dynamic<'b>(pool: &Pool<'b>, index: u16) -> DynamicView<'b>
    ensures { result ≡ dynamic_view pool.now index }
{
    let (bootstrap, named) = computed(pool, index);
    DynamicView {
        index,
        bootstrap,
        name: named.name,
        descriptor: named.descriptor,
    }
}

fn constant<'b>(pool: &Pool<'b>, index: u16) -> Option<Constant<'b>>
    ensures { result ≡ constant_at pool.now index }
{
    let (_, entry) = pool.get(index as usize)?;
    Some(match entry {
        Entry::Integer(n) => Constant::Integer(n.cast_signed()),
        Entry::Float => Constant::Float,
        Entry::Long(high, low) => Constant::Long(long(high, low)),
        Entry::Double => Constant::Double,
        Entry::Class(name) => Constant::Class(pool.text(name)),
        Entry::Str(name) => Constant::Str(pool.text(name)),
        Entry::MethodHandle(kind, reference) => Constant::Handle(member(pool, kind, reference)),
        Entry::MethodType(name) => Constant::MethodType(pool.text(name)),
        Entry::Dynamic(_, _) => Constant::Dynamic(dynamic(pool, index)),
        _ => Constant::Other,
    })
}

fn argument<'b>(pool: &Pool<'b>, index: u16) -> Constant<'b>
    ensures { result ≡ argument pool.now index }
{
    match constant(pool, index) {
        Some(constant) => constant,
        None => Constant::Other,
    }
}

/// The bootstrap method of a call site, and what is named there.
fn called<'b>(pool: &Pool<'b>, index: u16) -> (u16, Named<'b>)
    ensures { result ≡ called pool.now (slot pool.now index) }
{
    match pool.get(index as usize) {
        Some((_, Entry::InvokeDynamic(bootstrap, name))) => (bootstrap, named(pool, name)),
        _ => (0, nothing_named()),
    }
}

fn site<'b>(pool: &Pool<'b>, site: Site) -> SiteView<'b>
    ensures { result ≡ site_view pool.now site }
{
    let (bootstrap, named) = called(pool, site.index);
    SiteView {
        method: pool.text(site.method.name),
        method_descriptor: pool.text(site.method.descriptor),
        pc: site.pc,
        bootstrap,
        name: named.name,
        descriptor: named.descriptor,
    }
}

impl<'b> ClassView<'b> {
    /// The number of call sites.
    pub fn sites(&self) -> u32
        ensures { result ≡ length self.now.sites }
    {
        self.sites.len()
    }

    /// The call site of a number, in the order of methods in the file and of places in a method.
    pub fn site(&self, k: u32) -> SiteView<'b>
        requires { k < length self.now.sites }
        ensures { slice_get self.now.sites k ≡ Some result }
    {
        site(&self.pool, self.sites.get(k))
    }

    /// The constant at an index of the pool: none at 0, past the pool, and at the second index of a
    /// Long or a Double.
    pub fn constant(&self, i: u16) -> Option<Constant<'b>>
        ensures { result ≡ slice_index_or self.now.constants i None }
    {
        constant(&self.pool, i)
    }

    /// The number of Dynamic entries, which is at most 256.
    pub fn dynamics(&self) -> u16
        ensures { result ≡ length self.now.dynamics }
    {
        self.pool.dynamics().len() as u16
    }

    /// The Dynamic entry of a number, in the order of indexes.
    pub fn dynamic(&self, d: u16) -> DynamicView<'b>
        requires { d < length self.now.dynamics }
        ensures { slice_get self.now.dynamics d ≡ Some result }
    {
        dynamic(&self.pool, self.pool.dynamics()[d as usize])
    }

    /// The number of the Dynamic entry at an index of the pool: how many stand before that index.
    pub fn number_of(&self, index: u16) -> u16
        ensures { result ≡ number_of self.now index }
    {
        self.pool.dynamics_before(index)
    }

    /// The number of bootstrap methods.
    pub fn bootstraps(&self) -> u16
        ensures { result ≡ length self.now.bootstraps }
    {
        self.bootstraps.len()
    }

    /// The handle of a bootstrap method.
    pub fn bootstrap(&self, j: u16) -> HandleRef<'b>
        requires { j < length self.now.bootstraps }
        ensures { IfSome (slice_get self.now.bootstraps j) (λ b. b.handle ≡ result) }
    {
        handle(&self.pool, self.bootstraps.handle(j))
    }

    /// The number of static arguments of a bootstrap method.
    pub fn arguments(&self, j: u16) -> u16
        requires { j < length self.now.bootstraps }
        ensures { IfSome (slice_get self.now.bootstraps j) (λ b. length b.arguments ≡ result) }
    {
        self.bootstraps.count(j)
    }

    /// A static argument of a bootstrap method.
    pub fn argument(&self, j: u16, k: u16) -> Constant<'b>
        requires bootstrap { j < length self.now.bootstraps }
        requires argument { IfSome (slice_get self.now.bootstraps j) (λ b. k < length b.arguments) }
        ensures { IfSome (slice_get self.now.bootstraps j)
            (λ b. slice_get b.arguments k ≡ Some result) }
    {
        argument(&self.pool, self.bootstraps.argument(j, k))
    }
}
