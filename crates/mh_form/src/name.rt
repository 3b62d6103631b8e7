use crate::BasicRet;
use mh_base::Seq;

/// The places of the slots that a name takes, in order.
pub type Operands = Seq<u32>;

/// How many of the arguments of a loop each of its parts takes.
#[derive(Clone, Copy, Debug, PartialEq, Eq, Drop)]
pub struct LoopCounts {
    pub iterations: u32,
    pub init: u32,
    pub body: u32,
}

/// One step of a form (a `Name` of OpenJDK's `LambdaForm`). It puts one slot at the end of the list
/// of slots: what it gives, or int 0 if it gives nothing. Fields are named by their number, and
/// slots by their place in that list, both from 0.
#[derive(Drop)]
pub enum Name {
    /// `Get(field)`: the slot in a field.
    Get(u32),
    /// `Call(field, arguments)`: calls the leaf in a field.
    Call(u32, Operands),
    /// `Link(field, arguments)`: runs the part in a field.
    Link(u32, Operands),
    /// `Select(test, field, other, arguments)`: runs one of two parts, the first if the slot of the
    /// test is int 1, otherwise the other.
    Select(u32, u32, u32, Operands),
    /// `Guarded(field, class, handler, arguments, kept)`: runs the part in a field. An exception of
    /// the class in another field, or below it, goes to the handler in a third. The handler runs on
    /// the exception and the first `kept` arguments.
    Guarded(u32, u32, u32, Operands, u32),
    /// `Finally(part, cleanup, arguments, kept, result)`: runs the part in a field, and then the
    /// cleanup in another. The cleanup gets null, the result if there is one, and the first `kept`
    /// arguments. If the part throws, the cleanup runs on the exception, the default of the result
    /// and those arguments, and then the exception ends the run.
    Finally(u32, u32, Operands, u32, BasicRet),
    /// `Switch(slot, first, count, arguments)`: runs one of several parts. The fallback is in the
    /// first field, and `count` cases follow. The int in the slot numbers the cases from 0.
    Switch(u32, u32, u32, Operands),
    /// `Loop(first, arguments, counts, result)`: runs the iterations in the first field, which give
    /// an int, and then the start in the next field. Then it runs the body in the third field for
    /// each number from 0 below that int. The body gets its own last result, or that of the start,
    /// if there is one. It also gets the number and the first arguments.
    Loop(u32, Operands, LoopCounts, BasicRet),
    /// `Conv(field, slot)`: converts a slot by the conversion in a field.
    Conv(u32, u32),
    /// `Cast(field, slot)`: the same if both types are references, so that the slot stays as it
    /// is or an exception ends the run.
    Cast(u32, u32),
    /// `Ret(field, slot)`: converts a result, if there is one, by the return conversion in a field.
    Ret(u32, Option<u32>),
    /// `MakeArray(field, items)`: makes an array, of the component type in a field, of these slots.
    MakeArray(u32, Operands),
    /// `CheckArray(slot, count)`: checks that a slot holds an array of `count` items, or null if
    /// `count` is 0.
    CheckArray(u32, u32),
    /// `Elem(slot, item)`: an item of the array in a slot.
    Elem(u32, u32),
    /// `Join(field, arguments)`: joins the pieces in a field, with these slots as their arguments.
    Join(u32, Operands),
    /// `Raise(slot)`: throws the exception in a slot.
    Raise(u32),
}

/// The names of a form.
pub type Names = Seq<Name>;
