ghost use Rattle.std.specs.Prelude.{◌≡◌};

use mh_base::NoMemory;

/// Why nothing is drawn.
#[derive(Clone, Copy, Debug)]
pub enum Stop<'a> {
    NoMemory,
    /// A read of the named input failed.
    ReadFault(&'a str),
    /// The named input is over its limit.
    TooLong(&'a str),
    /// A line of the named input, by its number, has a fault of the kind that this text names.
    Fault(&'a str, u32, &'a str),
    /// The named class file has a fault at a place, of the kind that this text names.
    Place(&'a str, usize, &'a str),
    /// No number is left for a form.
    FormsFull,
    /// No slot is left for a type.
    TypesFull,
    /// There is no call site of this number; there are this many.
    NoSite(u32, u32),
}

impl<'a> From<NoMemory> for Stop<'a> {
    ghost use Rattle.mh_drawn.specs.declared.stop.Stop.TheVariants.{NoMemory as WithoutMemory};

    ghost from_gives = { λ _ stop. stop ≡ WithoutMemory };

    fn from(_: NoMemory) -> Self {
        Stop::NoMemory
    }
}
