ghost use Rattle.std.specs.Prelude.{◌≡◌};
ghost use Rattle.std.specs.List.{list_all};
ghost use Rattle.mh_edit.specs.Fit.{is_same_basic, is_nothing, is_basic_at, taken_by, takes_result, names_each, ends_with, fits};

use crate::Key;
use mh_form::{Basic, BasicRet, FormBody};

/// The most cases of a switch.
const MOST_CASES: u8 = 16;

fn is_same_basic(a: Basic, b: Basic) -> bool
    ensures { result ≡ is_same_basic a b }
{
    match (a, b) {
        (Basic::L, Basic::L) | (Basic::I, Basic::I) | (Basic::J, Basic::J) => true,
        _ => false,
    }
}

/// Whether a body is the empty one, from which roots start.
fn is_nothing(body: &FormBody) -> bool
    ensures { result ≡ is_nothing body.now }
{
    body.params.is_empty() && body.fields == 0 && body.names.is_empty() && !body.out.is_some()
}

fn is_basic_at(params: &[Basic], place: usize, basic: Basic) -> bool
    ensures { result ≡ is_basic_at params.now place basic }
{
    match params.get(place) {
        Some(found) => is_same_basic(basic, *found),
        None => false,
    }
}

/// How many parameters the result of a part takes the place of: none if it is void.
pub(crate) fn taken_by(ret: BasicRet) -> u8
    ensures { result ≡ taken_by ret }
{
    match ret {
        BasicRet::V => 0,
        BasicRet::Is(_) => 1,
    }
}

fn takes_result(params: &[Basic], pos: u8, ret: BasicRet) -> bool
    ensures { result ≡ takes_result params.now pos ret }
{
    match ret {
        BasicRet::V => pos as usize <= params.len(),
        BasicRet::Is(basic) => is_basic_at(params, pos as usize, basic),
    }
}

fn names_each(basics: &[Basic], reorder: &[u8], params: &[Basic]) -> bool
    ensures { result ≡ names_each basics.now reorder.now params.now }
{
    match reorder {
        [] => params.is_empty(),
        [place, reorder @ ..] => match params {
            [] => false,
            [basic, params @ ..] => {
                is_basic_at(basics, *place as usize, *basic) && names_each(basics, reorder, params)
            }
        },
    }
}

fn are_all(params: &[Basic], basic: Basic) -> bool
    ensures { result ≡ list_all (is_same_basic basic) params.now }
{
    params.iter().all(|found| is_same_basic(basic, *found))
}

fn ends_with(params: &[Basic], count: usize, basic: Basic) -> bool
    ensures { result ≡ ends_with params.now count basic }
{
    if count > params.len() {
        return false;
    }
    let front = params.len() - count;
    are_all(&params[front..], basic)
}

/// Whether a key fits a body. A root fits only `FormBody::nothing`. Any other key fits only a body
/// that was made, if its parameters have the positions and basic types that the key needs.
pub fn key_fits(body: &FormBody, key: &Key) -> bool
    ensures { result ≡ fits key.now body.now }
{
    let nothing = is_nothing(body);
    let params = body.params.as_slice();
    match key {
        Key::LeafRoot { .. }
        | Key::ConstRoot { .. }
        | Key::IdentityRoot { .. }
        | Key::ThrowRoot { .. }
        | Key::ConcatRoot { .. } => nothing,
        Key::GuardRoot { shape, test } => nothing && *test as usize <= shape.params.len(),
        Key::CatchRoot { shape, handler } => nothing && *handler as usize <= shape.params.len(),
        Key::TryRoot { shape, cleanup } => nothing && *cleanup as usize <= shape.params.len(),
        Key::SwitchRoot { shape, count } => {
            nothing
                && is_basic_at(shape.params.as_slice(), 0, Basic::I)
                && 0 < *count
                && *count <= MOST_CASES
        }
        Key::LoopRoot {
            shape,
            iterations,
            init,
            body: turns,
        } => {
            let most = shape.params.len();
            nothing
                && *iterations as usize <= most
                && *init as usize <= most
                && *turns as usize <= most
        }
        Key::Bind { pos } => !nothing && (*pos as usize) < params.len(),
        Key::Add { pos, .. } => !nothing && *pos as usize <= params.len(),
        Key::Permute { basics, reorder } => {
            !nothing && names_each(basics.as_slice(), reorder.as_slice(), params)
        }
        Key::Collect { pos, ret, .. } => !nothing && takes_result(params, *pos, *ret),
        Key::Fold { pos, count, ret } => {
            let end = *pos as usize + *count as usize + taken_by(*ret) as usize;
            !nothing && takes_result(params, *pos, *ret) && end <= params.len()
        }
        Key::FilterReturn { .. } => !nothing,
        Key::Convert {
            params: entries,
            ..
        } => !nothing && entries.len() == params.len(),
        Key::Spread { count, basic } => !nothing && ends_with(params, *count as usize, *basic),
        Key::Gather { .. } => {
            !nothing && !params.is_empty() && is_basic_at(params, params.len() - 1, Basic::L)
        }
    }
}
