ghost use Rattle.std.specs.Prelude.{◌≡◌, IfOk};
ghost use Rattle.std.specs.Option.{option_copied};
ghost use Rattle.mh_values.specs.Exception.{bare, saying, with_message};

use crate::value::ExcKept;
use crate::{Cause, ClassId, Exc, ExcParts, Str};
use mh_base::{Copied, Frozen, NoMemory, Seq, Shared};
use std::alloc::Global;

impl Exc {
    /// An exception with an empty message. It takes no memory.
    pub fn bare(class: ClassId) -> Exc
        ensures { result ≡ bare class }
    {
        Exc {
            kept: ExcKept::Bare(class),
        }
    }

    /// An exception that says this.
    pub fn of(alloc: Global, parts: ExcParts) -> Result<Exc, NoMemory>
        ensures { IfOk result (λ e. e ≡ parts) }
    {
        Ok(Exc {
            kept: ExcKept::Said(Shared::new(alloc, parts)?),
        })
    }

    /// An exception with a message of ASCII characters.
    pub fn saying(alloc: Global, class: ClassId, message: &[u8]) -> Result<Exc, NoMemory>
        ensures { IfOk result (λ e. e ≡ saying class message.now) }
    {
        let message = ascii_text(alloc, message)?;
        Exc::of(
            alloc,
            ExcParts {
                class,
                message,
                cause: None,
            },
        )
    }

    /// Its class.
    pub fn class(&self) -> ClassId
        ensures { result ≡ self.now.class }
    {
        match &self.kept {
            ExcKept::Bare(class) => *class,
            ExcKept::Said(parts) => parts.get().class,
        }
    }

    /// Its message.
    pub fn message(&self) -> &[char]
        ensures { result.now ≡ self.now.message }
    {
        match &self.kept {
            ExcKept::Bare(_) => &[],
            ExcKept::Said(parts) => parts.get().message.as_slice(),
        }
    }

    /// What it was caused by.
    pub fn cause(&self) -> Option<&Cause>
        ensures { option_copied result ≡ self.now.cause }
    {
        match &self.kept {
            ExcKept::Bare(_) => None,
            ExcKept::Said(parts) => parts.get().cause.as_ref(),
        }
    }

    /// The same exception with another message, of ASCII characters.
    pub fn with_message(self, alloc: Global, message: &[u8]) -> Result<Exc, NoMemory>
        ensures { IfOk result (λ e. e ≡ with_message message.now self) }
    {
        let message = ascii_text(alloc, message)?;
        let cause = match self.cause() {
            None => None,
            Some(cause) => Some(cause.copy(alloc)?),
        };
        let class = self.class();
        Exc::of(
            alloc,
            ExcParts {
                class,
                message,
                cause,
            },
        )
    }
}

/// The characters of an ASCII text.
fn ascii_text(alloc: Global, bytes: &[u8]) -> Result<Str, NoMemory>
    ensures { IfOk result (λ text. text ≡ bytes.now) }
{
    let mut text = Seq::new(alloc);
    for byte in bytes {
        text.push(char::from(*byte))?;
    }
    Frozen::of(alloc, text)
}
