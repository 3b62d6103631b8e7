ghost use Rattle.std.specs.Prelude.{◌≡◌, IsTrue};
ghost use mathlib.Core.Logic.{◌↔◌};
ghost use Rattle.mh_edit.specs.declared.key.Key.TheVariants as key;

use mh_base::Seq;
use mh_edit::Key::{
    Add, Bind, CatchRoot, Collect, ConcatRoot, ConstRoot, Convert, FilterReturn, Fold, Gather,
    GuardRoot, IdentityRoot, LeafRoot, LoopRoot, Permute, Spread, SwitchRoot, ThrowRoot, TryRoot,
};
use mh_edit::{Key, Places, RetEntry};
use mh_form::{Basic, BasicRet, Basics, Shape};

/// Values that can be compared.
pub(crate) trait Same {
    /// Whether both are the same. It takes no memory.
    fn is_same(&self, other: &Self) -> bool
        ensures { IsTrue result ↔ (self.now ≡ other.now) };
}

impl Same for u8 {
    fn is_same(&self, other: &u8) -> bool {
        *self == *other
    }
}

impl Same for Basic {
    fn is_same(&self, other: &Basic) -> bool {
        *self == *other
    }
}

impl Same for Option<Basic> {
    fn is_same(&self, other: &Option<Basic>) -> bool {
        *self == *other
    }
}

impl Same for BasicRet {
    fn is_same(&self, other: &BasicRet) -> bool {
        *self == *other
    }
}

impl Same for RetEntry {
    fn is_same(&self, other: &RetEntry) -> bool {
        *self == *other
    }
}

impl<T: Same> Same for Seq<T> {
    fn is_same(&self, other: &Seq<T>) -> bool {
        are_same(self.as_slice(), other.as_slice())
    }
}

/// Whether both lists are the same.
pub(crate) fn are_same<T: Same>(these: &[T], others: &[T]) -> bool
    ensures { IsTrue result ↔ (these.now ≡ others.now) }
{
    if these.len() != others.len() {
        return false;
    }
    for at in 0..these.len() {
        if !these[at].is_same(&others[at]) {
            return false;
        }
    }
    true
}

impl Same for Shape {
    fn is_same(&self, other: &Shape) -> bool {
        self.params.is_same(&other.params) && self.ret == other.ret
    }
}

impl Same for Key {
    fn is_same(&self, other: &Key) -> bool {
        match (self, other) {
            (LeafRoot { shape }, LeafRoot { shape: s }) => shape.is_same(s),
            (ConstRoot { basic }, ConstRoot { basic: b }) => *basic == *b,
            (IdentityRoot { basic }, IdentityRoot { basic: b }) => *basic == *b,
            (ThrowRoot { ret }, ThrowRoot { ret: r }) => *ret == *r,
            (GuardRoot { shape, test }, GuardRoot { shape: s, test: t }) => {
                *test == *t && shape.is_same(s)
            }
            (CatchRoot { shape, handler }, _) => is_catch_root(shape, *handler, other),
            (TryRoot { shape, cleanup }, _) => is_try_root(shape, *cleanup, other),
            (SwitchRoot { shape, count }, _) => is_switch_root(shape, *count, other),
            (
                LoopRoot {
                    shape,
                    iterations,
                    init,
                    body,
                },
                _,
            ) => is_loop_root(shape, *iterations, *init, *body, other),
            (ConcatRoot { shape }, ConcatRoot { shape: s }) => shape.is_same(s),
            (Bind { pos }, Bind { pos: p }) => *pos == *p,
            (Add { pos, basics }, Add { pos: p, basics: b }) => *pos == *p && basics.is_same(b),
            (Permute { basics, reorder }, _) => is_permute(basics, reorder, other),
            (Collect { pos, basics, ret }, _) => is_collect(*pos, basics, *ret, other),
            (Fold { pos, count, ret }, _) => is_fold(*pos, *count, *ret, other),
            (FilterReturn { ret }, FilterReturn { ret: r }) => *ret == *r,
            (Convert { params, ret }, Convert { params: p, ret: r }) => {
                *ret == *r && params.is_same(p)
            }
            (Spread { count, basic }, Spread { count: c, basic: b }) => {
                *count == *c && *basic == *b
            }
            (Gather { count, basic }, Gather { count: c, basic: b }) => {
                *count == *c && *basic == *b
            }
            _ => false,
        }
    }
}

fn is_catch_root(shape: &Shape, handler: u8, other: &Key) -> bool
    ensures { IsTrue result ↔ (key.CatchRoot shape.now handler ≡ other.now) }
{
    match other {
        CatchRoot {
            shape: s,
            handler: h,
        } => { handler == *h && shape.is_same(s) }
        _ => false,
    }
}

fn is_try_root(shape: &Shape, cleanup: u8, other: &Key) -> bool
    ensures { IsTrue result ↔ (key.TryRoot shape.now cleanup ≡ other.now) }
{
    match other {
        TryRoot {
            shape: s,
            cleanup: c,
        } => { cleanup == *c && shape.is_same(s) }
        _ => false,
    }
}

fn is_switch_root(shape: &Shape, count: u8, other: &Key) -> bool
    ensures { IsTrue result ↔ (key.SwitchRoot shape.now count ≡ other.now) }
{
    match other {
        SwitchRoot { shape: s, count: c } => { count == *c && shape.is_same(s) }
        _ => false,
    }
}

fn is_loop_root(shape: &Shape, iterations: u8, init: u8, body: u8, other: &Key) -> bool
    ensures { IsTrue result ↔ (key.LoopRoot shape.now iterations init body ≡ other.now) }
{
    match other {
        LoopRoot {
            shape: s,
            iterations: n,
            init: i,
            body: b,
        } => { iterations == *n && init == *i && body == *b && shape.is_same(s) }
        _ => false,
    }
}

fn is_permute(basics: &Basics, reorder: &Places, other: &Key) -> bool
    ensures { IsTrue result ↔ (key.Permute basics.now reorder.now ≡ other.now) }
{
    match other {
        Permute {
            basics: b,
            reorder: r,
        } => { basics.is_same(b) && reorder.is_same(r) }
        _ => false,
    }
}

fn is_collect(pos: u8, basics: &Basics, ret: BasicRet, other: &Key) -> bool
    ensures { IsTrue result ↔ (key.Collect pos basics.now ret ≡ other.now) }
{
    match other {
        Collect {
            pos: p,
            basics: b,
            ret: r,
        } => { pos == *p && ret == *r && basics.is_same(b) }
        _ => false,
    }
}

fn is_fold(pos: u8, count: u8, ret: BasicRet, other: &Key) -> bool
    ensures { IsTrue result ↔ (key.Fold pos count ret ≡ other.now) }
{
    match other {
        Fold {
            pos: p,
            count: c,
            ret: r,
        } => { pos == *p && count == *c && ret == *r }
        _ => false,
    }
}
