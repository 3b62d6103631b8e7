ghost use Rattle.std.specs.Prelude.{◌≡◌, ◌<◌, ◌^◌};
ghost use Rattle.mh_made_class.specs.Sites.{argument_width, site_width};

use mh_base::Seq;
use mh_values::Str;

/// A static argument of a call site.
#[derive(Debug, Drop)]
pub enum MadeArg {
    Integer(i32),
    Long(i64),
    Str(Str),
}

/// Static arguments, in order.
pub type MadeArgs = Seq<MadeArg>;

/// A call site: what it is linked by, and what it calls.
#[derive(Debug, Drop)]
pub struct MadeSite {
    /// The name of its bootstrap method, a static method of the class `made/Boot`.
    pub script: Str,
    /// Its type, as a method descriptor.
    pub ty: Str,
    pub args: MadeArgs,
}

/// Call sites, in order of their places in the code.
pub type MadeSites = Seq<MadeSite>;

impl MadeArg {
    /// How many indexes of the pool it takes.
    pub(crate) fn width(&self) -> usize
        ensures { result ≡ argument_width self.now }
    {
        match self {
            MadeArg::Integer(_) => 1,
            MadeArg::Long(_) | MadeArg::Str(_) => 2,
        }
    }
}

impl MadeSite {
    /// How many indexes of the pool it takes.
    pub(crate) fn width(&self) -> usize
        requires { site_width self.now < 2 ^ 16 }
        ensures { result ≡ site_width self.now }
    {
        let arguments = self.args.as_slice();
        7 + arguments.iter().map(|arg| arg.width()).sum::<usize>()
    }
}
